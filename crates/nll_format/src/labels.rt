//! The names that reports print.

ghost use Rattle.std.specs.Prelude.{◌≡◌, ◌<◌, [], length, slice_index_or};
ghost use Rattle.nll_format.specs.Labels.{AreFirstPoints, blocks, numbers};
ghost use Rattle.nll_format.specs.Labels.{point_name};

use crate::names::Names;
use nll_problem::RegionId;
use std::marker::Model;

/// How a point is written.
#[derive(Clone, Copy, Debug, PartialEq, Eq)]
pub enum PointName {
    /// By its number, in facts texts.
    Number(u32),
    /// By its block and its place there, both counted from 0, in texts of bodies.
    Block(u32, u32),
}

// How points are named: by their numbers, or by the blocks, of which each first point is kept.
#[derive(Drop)]
enum Points {
    Numbers,
    Blocks(Vec<u32>),
}

/// The names of a text's regions and points.
///
/// # Shape
/// One name per region, `static` first, without its leading `'`.
pub struct Labels {
    names: Names,
    points: Points,
}

// A derived drop would be proved anew in each crate that drops one.
impl Drop for Labels {
    fn drop(self) {
        let Labels {
            names: _,
            points: _,
        } = self;
    }
}

impl Model for Labels {
    ghost use Rattle.nll_format.specs.Labels as spec;
    ghost use Rattle.nll_format.specs.Labels.{points_of, AreStartsKept};

    ghost Value = { spec.Labels };

    ghost view = { λ labels. record { names = labels.names; points = points_of labels.points } };

    ghost invariant = { λ labels. AreStartsKept labels.points };
}

impl Labels {
    /// The labels of regions of these names, and of points that are named by their numbers.
    pub fn new(names: Names) -> Labels
        ensures { result ≡ record { names = names; points = numbers } }
    {
        Labels {
            names,
            points: Points::Numbers,
        }
    }

    /// The labels of regions of these names, and of points that are named by the blocks with these
    /// first points.
    pub fn with_blocks(names: Names, starts: Vec<u32>) -> Labels
        requires { AreFirstPoints starts.items }
        ensures { result ≡ record { names = names; points = blocks starts.items } }
    {
        Labels {
            names,
            points: Points::Blocks(starts),
        }
    }

    /// How many regions have a name.
    pub fn regions(&self) -> usize
        ensures { result ≡ length self.now.names }
    {
        self.names.len()
    }

    /// The name of a region, without its leading `'`.
    pub fn region(&self, region: RegionId) -> &str
        requires { region < length self.now.names }
        ensures { result.now ≡ slice_index_or self.now.names region [] }
    {
        self.names.name(region.0 as usize)
    }

    /// How a point is written.
    ///
    /// # Cost
    /// For blocks the logarithm of their number (not proved).
    pub fn point(&self, point: u32) -> PointName
        ensures { result ≡ point_name self.now.points point }
    {
        match &self.points {
            Points::Numbers => PointName::Number(point),
            Points::Blocks(starts) => name_in_block(starts.as_slice(), point),
        }
    }
}

// A point by its block, which is the last that begins at it or before it.
fn name_in_block(starts: &[u32], point: u32) -> PointName
    requires { AreFirstPoints starts.now }
    ensures { result ≡ point_name (blocks starts.now) point }
{
    let block = starts.partition_point(|start| *start <= point) - 1;
    PointName::Block(block as u32, point - starts[block])
}
