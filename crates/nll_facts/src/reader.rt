//! The reader of the lines of a facts text: what they say so far.
//!
//! The problem's builder needs the number of universal regions, so it is made at the first line
//! after them.

ghost use Rattle.std.specs.Prelude.{◌≡◌, ◌⊎◌, ◌↔◌, ◌<◌, ◌≤◌, ℕ, [], length, Some, true, false};
ghost use Rattle.std.specs.Prelude.{IfOk, IfErr, OnOk, OnErr};
ghost use Rattle.nll_problem.specs.Limits.{most_regions};
ghost use Rattle.nll_problem.specs.Problem.{SameProblem};
ghost use Rattle.nll_facts.specs.FactsForms as forms;
ghost use Rattle.nll_facts.specs.FactsLines.{facts_view};
ghost use Rattle.nll_facts.specs.FactsSaid as specs;
ghost use Rattle.nll_facts.specs.FactsSaid.{first_facts_fault, is_declared, is_fact_in_order};
ghost use Rattle.nll_facts.specs.FactsSaid.{facts_said};
ghost use Rattle.nll_facts.specs.FactsReading.{facts_said_by, IsTableKept, IsFactsReady};
ghost use Rattle.nll_facts.specs.FactsReading.{HasFactsTexts, SameSaid};
ghost use Rattle.nll_facts.specs.FactsReading.{IsDueFact, IsFactTaken, IsFactRefused};
ghost use Rattle.nll_facts.specs.FactsText.{facts};
ghost use Rattle.nll_format.specs.Names.{number_of};

use crate::line::{Line, line_of};
use crate::version::{Version, is_of_version};
use nll_format::{LineReader, Names, TextKind, pass_over};
use nll_problem::{
    At, BuildError, Constraint, Kind, MAX_POINTS, MAX_UNIVERSALS, Problem, ProblemBuilder, RegionId,
};
use std::alloc::Global;

/// What the lines read so far say.
#[derive(Drop)]
pub struct Reader {
    alloc: Global,
    reached: u8,
    points: u32,
    names: Names,
    // Where the next name is looked for first: the number of the region of the last base fact.
    recent: usize,
    builder: Option<ProblemBuilder>,
}

// The group of a line.
fn group(line: &Line<'_>) -> u8
    ensures { result ≡ specs.facts_group (facts_view line.now) }
{
    match line {
        Line::Points(_) => 1,
        Line::Universal(_) => 2,
        Line::Outlives(_, _) => 3,
        Line::Region(_) => 4,
        Line::Next(_, _) | Line::Return(_) | Line::Base(_, _) | Line::Constraint(_, _, _) => 5,
        Line::End => 6,
    }
}

impl Reader {
    /// No line is read yet, and `'static` is declared.
    pub fn new(alloc: Global) -> Result<Reader, TextKind>
        ensures said { IfOk result (λ r. facts_said_by r ≡ facts_said []) }
        ensures ready { IfOk result IsFactsReady }
        ensures err { IfErr result (λ kind. kind ≡ TextKind.Memory) }
    {
        Ok(Reader {
            alloc,
            reached: 0,
            points: 0,
            names: Names::new(alloc)?,
            recent: 0,
            builder: None,
        })
    }

    // Whether a line is in order.
    fn may_follow(&self, line: &Line<'_>) -> bool
        ensures { result ≡ is_fact_in_order (facts_said_by self.now) (facts_view line.now) }
    {
        let group = group(line);
        let is_repeated = group != 1 && group != 6;
        (self.reached < group || (self.reached == group && is_repeated))
            && (0 < self.reached || group == 1)
    }

    // Makes the builder, where the line needs one and there is none yet.
    fn start(&mut self, line: &Line<'_>) -> Result<(), TextKind>
        requires ready { IsFactsReady self.old }
        requires order { is_fact_in_order (facts_said_by self.old) (facts_view line.now) ≡ true }
        ensures said { OnOk result (facts_said_by self.new ≡ facts_said_by self.old) }
        ensures kept { OnOk result (IsTableKept (specs.facts_group
            (facts_view line.now)) self.new) }
        ensures err { IfErr result (λ kind. kind ≡ TextKind.Memory) }
    {
        if group(line) > 2 && self.builder.is_none() {
            self.begin().map_err(TextKind::of)?;
        }
        Ok(())
    }

    // The number of a declared name.
    fn region(&self, name: &[u8]) -> Result<RegionId, TextKind>
        requires { length self.now.names ≤ most_regions }
        ensures ok { IfOk result (λ r. r ≡ number_of self.now.names name.now) }
        ensures declared { OnOk result (is_declared (facts_said_by self.now) name.now ≡ true) }
        ensures unknown { OnErr result (is_declared (facts_said_by self.now) name.now ≡ false) }
        ensures err { IfErr result (λ kind. kind ≡ TextKind.Unknown) }
    {
        if self.names.is_at(self.recent, name) {
            return Ok(RegionId(self.recent as u32));
        }
        match self.names.number_of(name) {
            Some(number) => Ok(RegionId(number as u32)),
            None => Err(TextKind::Unknown),
        }
    }

    // Makes the builder. It is a function of its own, so that a line which finds one doesn't pay
    // for the stack space that making one takes.
    fn begin(&mut self) -> Result<(), BuildError>
        requires ready { IsFactsReady self.old }
        requires begun { 0 < self.old.reached }
        requires early { self.old.reached ≤ 2 }
        ensures said { OnOk result (facts_said_by self.new ≡ facts_said_by self.old) }
        ensures kept { OnOk result ((n : ℕ) → 2 < n → IsTableKept n self.new) }
        ensures err { IfErr result (λ error. error ≡ BuildError.Memory) }
    {
        let universals = self.names.len() as u32;
        let builder = ProblemBuilder::new(self.alloc, self.points, universals)?;
        drop(self.builder.replace(builder));
        Ok(())
    }

    // Adds a universal region.
    fn add_universal(&mut self, name: &[u8]) -> Result<(), TextKind>
        requires { IsDueFact self.old (forms.universal name.now) }
        ensures taken { OnOk result
            (IsFactTaken (facts_said_by self.old) (forms.universal name.now) self.new) }
        ensures refused { IfErr result (IsFactRefused (facts_said_by self.old)
            (forms.universal name.now)) }
    {
        if self.names.number_of(name).is_some() {
            return Err(TextKind::Duplicate);
        }
        if self.names.len() >= MAX_UNIVERSALS as usize {
            return Err(TextKind::Limit(Kind::Universals));
        }
        self.names.add(self.alloc, name)?;
        self.reached = 2;
        Ok(())
    }

    // Adds a further region.
    fn add_region(&mut self, name: &[u8]) -> Result<(), TextKind>
        requires { IsDueFact self.old (forms.further name.now) }
        ensures taken { OnOk result (IsFactTaken (facts_said_by self.old)
            (forms.further name.now) self.new) }
        ensures refused { IfErr result (IsFactRefused (facts_said_by self.old)
            (forms.further name.now)) }
    {
        if self.names.number_of(name).is_some() {
            return Err(TextKind::Duplicate);
        }
        let Some(builder) = &mut self.builder else {
            unreachable!();
        };
        builder.region().map_err(TextKind::of)?;
        self.names.add(self.alloc, name)?;
        self.reached = 4;
        Ok(())
    }

    // Adds an edge.
    fn add_next(&mut self, from: u32, to: u32) -> Result<(), TextKind>
        requires { IsDueFact self.old (forms.next from to) }
        ensures taken { OnOk result (IsFactTaken (facts_said_by self.old)
            (forms.next from to) self.new) }
        ensures refused { IfErr result (IsFactRefused (facts_said_by self.old)
            (forms.next from to)) }
    {
        let Some(builder) = &mut self.builder else {
            unreachable!();
        };
        builder.next(from, to).map_err(TextKind::of)?;
        self.reached = 5;
        Ok(())
    }

    // Adds a return point.
    fn add_return(&mut self, point: u32) -> Result<(), TextKind>
        requires { IsDueFact self.old (forms.return point) }
        ensures taken { OnOk result (IsFactTaken (facts_said_by self.old)
            (forms.return point) self.new) }
        ensures refused { IfErr result (IsFactRefused (facts_said_by self.old)
            (forms.return point)) }
    {
        let Some(builder) = &mut self.builder else {
            unreachable!();
        };
        builder.ret(point).map_err(TextKind::of)?;
        self.reached = 5;
        Ok(())
    }

    // Adds an outlives fact.
    fn add_outlives(&mut self, longer: &[u8], shorter: &[u8]) -> Result<(), TextKind>
        requires { IsDueFact self.old (forms.outlives longer.now shorter.now) }
        ensures taken { OnOk result (IsFactTaken (facts_said_by self.old)
            (forms.outlives longer.now shorter.now) self.new) }
        ensures refused { IfErr result
            (IsFactRefused (facts_said_by self.old) (forms.outlives longer.now shorter.now)) }
    {
        let longer = self.region(longer)?;
        let shorter = self.region(shorter)?;
        let Some(builder) = &mut self.builder else {
            unreachable!();
        };
        builder.outlives(longer, shorter).map_err(TextKind::of)?;
        self.reached = 3;
        Ok(())
    }

    // Adds a base fact.
    fn add_base(&mut self, name: &[u8], point: u32) -> Result<(), TextKind>
        requires { IsDueFact self.old (forms.base name.now point) }
        ensures taken { OnOk result
            (IsFactTaken (facts_said_by self.old) (forms.base name.now point) self.new) }
        ensures refused { IfErr result (IsFactRefused (facts_said_by self.old)
            (forms.base name.now point)) }
    {
        let region = self.region(name)?;
        let Some(builder) = &mut self.builder else {
            unreachable!();
        };
        builder.base(region, point).map_err(TextKind::of)?;
        self.recent = region.0 as usize;
        self.reached = 5;
        Ok(())
    }

    // Adds a constraint.
    fn add_constraint(&mut self, sup: &[u8], sub: &[u8], at: At) -> Result<(), TextKind>
        requires { IsDueFact self.old (forms.constraint sup.now sub.now at) }
        ensures taken { OnOk result
            (IsFactTaken (facts_said_by self.old) (forms.constraint sup.now sub.now at) self.new) }
        ensures refused { IfErr result
            (IsFactRefused (facts_said_by self.old) (forms.constraint sup.now sub.now at)) }
    {
        let sup = self.region(sup)?;
        let sub = self.region(sub)?;
        let Some(builder) = &mut self.builder else {
            unreachable!();
        };
        let constraint = Constraint { sup, sub, at };
        builder.constraint(constraint).map_err(TextKind::of)?;
        self.reached = 5;
        Ok(())
    }

    // Takes in a line of a form, unless something is wrong with it.
    fn accept(&mut self, line: &Line<'_>) -> Result<(), TextKind>
        requires ready { IsFactsReady self.old }
        requires texts { HasFactsTexts (facts_view line.now) }
        ensures taken { OnOk result (IsFactTaken (facts_said_by self.old)
            (facts_view line.now) self.new) }
        ensures refused { IfErr result (IsFactRefused (facts_said_by self.old)
            (facts_view line.now)) }
    {
        if !self.may_follow(line) {
            return Err(TextKind::Syntax);
        }
        self.start(line)?;
        match *line {
            Line::Points(0) => Err(TextKind::Range),
            Line::Points(count) if count > MAX_POINTS => Err(TextKind::Limit(Kind::Points)),
            Line::Points(count) => {
                self.points = count;
                self.reached = 1;
                Ok(())
            }
            Line::Universal(name) => self.add_universal(name),
            Line::Outlives(longer, shorter) => self.add_outlives(longer, shorter),
            Line::Region(name) => self.add_region(name),
            Line::Next(from, to) => self.add_next(from, to),
            Line::Return(point) => self.add_return(point),
            Line::Base(name, point) => self.add_base(name, point),
            Line::Constraint(sup, sub, at) => self.add_constraint(sup, sub, at),
            Line::End => {
                self.reached = 6;
                Ok(())
            }
        }
    }

    /// The problem and the names that the lines say. Allocates nothing.
    pub fn finish(self) -> (Problem, Names)
        requires ready { IsFactsReady self }
        requires ended { self.reached ≡ 6 }
        ensures problem { SameProblem (facts_said_by self).problem result.0 }
        ensures names { result.1 ≡ (facts_said_by self).names }
    {
        let Reader { names, builder, .. } = self;
        let Some(builder) = builder else {
            unreachable!();
        };
        let Ok(problem) = builder.finish() else {
            unreachable!();
        };
        (problem, names)
    }
}

impl<'a> LineReader<'a, Version> for Reader {
    ghost format_of = { facts };

    ghost holds = { λ _ forms reader. SameSaid (facts_said forms) (facts_said_by reader) };

    ghost ready = { IsFactsReady };

    fn read_line(&mut self, version: &Version, line: &'a [u8]) -> Result<(), TextKind> {
        let Some(form) = line_of(line) else {
            return pass_over(line);
        };
        if !is_of_version(*version, &form) {
            return Err(TextKind::Syntax);
        }
        self.accept(&form)?;
        Ok(())
    }

    fn has_ended(&self, _version: &Version) -> bool {
        self.reached == 6
    }
}
