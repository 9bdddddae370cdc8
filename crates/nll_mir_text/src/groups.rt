//! The groups of lines, in their order in a text.

ghost use Rattle.std.specs.Prelude.{◌≡◌, ◌+◌, ◌≤◌, ◌==◌, nat_lt};
ghost use Rattle.nll_mir_grammar.specs.Lines.{form_of};
ghost use Rattle.nll_mir_text.specs.MirSaid.{group};
ghost use Rattle.nll_mir_text.specs.MirSteps as steps;

use nll_mir_grammar::Line;

/// A group of lines. That of the header comes first.
#[derive(Clone, Copy)]
pub enum Group {
    Header,
    Universals,
    Outlives,
    Regions,
    Asserts,
    Structs,
    Variables,
    BlockCount,
    Blocks,
    End,
}

impl Group {
    // Its number in the order of groups.
    fn rank(self) -> u8
        ensures rank { result ≡ steps.rank self }
        ensures few { result ≤ 9 }
    {
        match self {
            Group::Header => 0,
            Group::Universals => 1,
            Group::Outlives => 2,
            Group::Regions => 3,
            Group::Asserts => 4,
            Group::Structs => 5,
            Group::Variables => 6,
            Group::BlockCount => 7,
            Group::Blocks => 8,
            Group::End => 9,
        }
    }

    /// Whether it comes before another group.
    pub fn is_before(self, other: Group) -> bool
        ensures { result ≡ nat_lt (steps.rank self) (steps.rank other) }
    {
        self.rank() < other.rank()
    }

    /// Whether it is right before another group.
    pub fn precedes(self, other: Group) -> bool
        ensures { result ≡ (steps.rank self + 1 == steps.rank other) }
    {
        self.rank() + 1 == other.rank()
    }
}

/// The group of a line.
pub fn group_of(line: &Line<'_>) -> Group
    ensures { steps.rank result ≡ group (form_of line.now) }
{
    match line {
        Line::Universal(_) => Group::Universals,
        Line::Outlives(_, _) => Group::Outlives,
        Line::Region(_) => Group::Regions,
        Line::Assert(_, _) => Group::Asserts,
        Line::Struct(_) => Group::Structs,
        Line::Let(_, _) => Group::Variables,
        Line::Blocks(_) => Group::BlockCount,
        Line::Block(_) | Line::At(_) => Group::Blocks,
        Line::End => Group::End,
    }
}
