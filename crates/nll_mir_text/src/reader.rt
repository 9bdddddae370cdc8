//! The reader of the lines of a MIR text: what they say so far, and which line takes what.

ghost use Rattle.std.specs.Prelude.{◌≡◌, ◌↔◌, List, [], IsTrue, IfOk, IfErr, OnOk};
ghost use Rattle.nll_mir_grammar.specs.MirForms.{Form};
ghost use Rattle.nll_mir_grammar.specs.Lines.{form_of};
ghost use Rattle.nll_mir_text.specs.MirFaults.{is_in_body, is_in_order};
ghost use Rattle.nll_mir_text.specs.MirSteps as steps;
ghost use Rattle.nll_mir_text.specs.MirReading.{said_by, HoldsForms, IsReady, HasTexts};
ghost use Rattle.nll_mir_text.specs.MirReading.{HasFewParameters, IsTaken, IsRefused};
ghost use Rattle.nll_body.specs.Parts.{AreTyped, body_of};
ghost use Rattle.nll_mir_text.specs.MirText.{body_said, mir};

use crate::groups::{Group, group_of};
use crate::tables::{Points, Regions, StructNames, Variables};
use crate::type_resolution::Resolving;
use indexmap::IndexSet;
use nll_body::{BodyParts, Statements};
use nll_format::{LineReader, Names, TextKind, pass_over};
use nll_mir_grammar::{Line, Version, light_block, light_line, line_of};
use nll_sets::Memory;
use nll_types::BodyTypes;
use std::alloc::Global;

/// What the lines read so far say.
#[derive(Drop)]
pub struct Reader {
    pub(crate) alloc: Global,
    pub(crate) reached: Group,
    pub(crate) regions: Regions,
    pub(crate) structs: StructNames,
    pub(crate) variables: Variables,
    pub(crate) points: Points,
    pub(crate) resolving: Resolving,
}

impl Reader {
    /// No line is read yet, and `'static` is declared.
    pub fn new(alloc: Global) -> Result<Reader, TextKind>
        ensures said { IfOk result (λ r. HoldsForms r []) }
        ensures ready { IfOk result IsReady }
        ensures err { IfErr result (λ kind. kind ≡ TextKind.Memory) }
    {
        let names = Names::new(alloc)?;
        Ok(Reader {
            alloc,
            reached: Group::Header,
            regions: Regions {
                names,
                universals: 1,
                outlives: IndexSet::new(alloc),
                asserts: IndexSet::new(alloc),
            },
            structs: StructNames {
                names: Names::empty(alloc),
                kinds: Vec::new(alloc),
                none: Names::empty(alloc),
            },
            variables: Variables {
                types: BodyTypes::new(alloc),
                typed: Vec::new(alloc),
            },
            points: Points {
                blocks: 0,
                starts: Vec::new(alloc),
                statements: Statements::new(alloc),
                edges: 0,
                owes: false,
            },
            resolving: Resolving::new(alloc),
        })
    }

    // Whether a line of a group or of a later one is there.
    fn has_reached(&self, group: Group) -> bool
        ensures { result ≡ steps.has_reached (said_by self.now) group }
    {
        !self.reached.is_before(group)
    }

    // Whether the `blocks` line is there, and no `end` line.
    pub(crate) fn is_in_body(&self) -> bool
        ensures { result ≡ is_in_body (said_by self.now) }
    {
        self.has_reached(Group::BlockCount) & !self.has_reached(Group::End)
    }

    // Whether a line is in order.
    fn may_follow(&self, line: &Line<'_>) -> bool
        ensures { result ≡ is_in_order (said_by self.now) (form_of line.now) }
    {
        match line {
            Line::Blocks(_) => self.reached.precedes(Group::BlockCount),
            Line::Block(_) | Line::End => self.is_in_body() & !self.points.owes,
            Line::At(_) => self.is_in_body() & self.points.owes,
            _ => !group_of(line).is_before(self.reached),
        }
    }

    // Takes in a line of a form, unless something is wrong with it.
    fn accept(&mut self, line: &Line<'_>) -> Result<(), TextKind>
        requires ready { IsReady self.old }
        requires texts { HasTexts (form_of line.now) }
        requires few { HasFewParameters (form_of line.now) }
        ensures taken { OnOk result (IsTaken (said_by self.old) (form_of line.now) self.new) }
        ensures refused { IfErr result (IsRefused (said_by self.old) (form_of line.now)) }
    {
        if !self.may_follow(line) {
            return Err(TextKind::Syntax);
        }
        match line {
            Line::Universal(name) => self.add_universal(name),
            Line::Outlives(longer, shorter) => self.add_outlives(longer, shorter),
            Line::Region(name) => self.add_region(name),
            Line::Assert(longer, shorter) => self.add_assert(longer, shorter),
            Line::Struct(text) => self.add_struct(text),
            Line::Let(number, text) => self.add_variable(*number, text),
            Line::Blocks(count) => self.set_blocks(*count),
            Line::Block(number) => self.add_block(*number),
            Line::At(statement) => self.add_statement(statement),
            Line::End => self.end(),
        }
    }

    /// The parts of the body that the lines say, of which these are the pairs of regions: those
    /// that are known, and those that are asserted.
    pub fn finish(self, outlives: Vec<(u32, u32)>, asserts: Vec<(u32, u32)>) -> BodyParts
        requires ready { IsReady self }
        requires outlives { outlives.items ≡ (said_by self).outlives }
        requires asserts { asserts.items ≡ (said_by self).asserts }
        ensures body { body_of result ≡ body_said (said_by self) }
        ensures typed { AreTyped result }
    {
        let Reader {
            regions,
            structs,
            variables,
            points,
            resolving,
            ..
        } = self;
        drop(structs);
        drop(resolving);
        let universals = regions.universals as u32;
        BodyParts {
            names: regions.names,
            universals,
            outlives,
            asserts,
            types: variables.types,
            variables: variables.typed,
            starts: points.starts,
            points: points.statements,
        }
    }
}

impl<'a> LineReader<'a, Version> for Reader {
    ghost format_of = { mir };

    ghost holds = { λ _ forms reader. HoldsForms reader forms };

    ghost ready = { IsReady };

    fn read_line(&mut self, version: &Version, line: &'a [u8]) -> Result<(), TextKind> {
        if let Some(light) = light_line(line) {
            return self.add_light(light);
        }
        if let Some(number) = light_block(line) {
            return self.begin_block(number);
        }
        match line_of(self.alloc, *version, line)? {
            Some(form) => {
                let taken = self.accept(&form);
                // Early drop.
                drop(form);
                taken
            }
            None => pass_over(line),
        }
    }

    fn has_ended(&self, version: &Version) -> bool
        ensures { (forms : List Form) → HoldsForms self.now forms
            → IsTrue result ↔ (mir version.now).HasEnded forms }
    {
        self.has_reached(Group::End)
    }
}
