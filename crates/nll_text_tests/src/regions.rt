//! The regions that a text declares, which bodies and problems have in common.
use super::line::Line;
use super::tokens::{Bytes, is_among};
use nll_format::TextKind::{Duplicate, Unknown};
use std::alloc::Global;

/// The regions in their order, `'static` first, and how many of them are universal.
#[derive(Drop)]
pub struct Regions<'a> {
    names: Vec<Bytes<'a>>,
    universals: usize,
}

impl<'a> Regions<'a> {
    /// `'static` alone.
    pub fn new(alloc: Global) -> Regions<'a> {
        let mut names: Vec<Bytes<'a>> = Vec::new(alloc);
        let _ = names.push(b"'static");
        Regions {
            names,
            universals: 1,
        }
    }

    /// Declares a region.
    pub fn declare(&mut self, line: &mut Line<'a>) {
        let name = line.region();
        line.wrong_if(is_among(self.names.as_slice(), name), Duplicate);
        let _ = self.names.push(name);
    }

    /// Declares a universal region. No other one is declared before.
    pub fn declare_universal(&mut self, line: &mut Line<'a>) {
        self.declare(line);
        self.universals = self.names.len();
    }

    /// Reads the name of a region.
    pub fn known(&self, line: &mut Line<'a>) {
        let name = line.region();
        line.wrong_if(!is_among(self.names.as_slice(), name), Unknown);
    }

    /// Reads the name of a universal region.
    pub fn universal(&self, line: &mut Line<'a>) {
        let name = line.region();
        let universals = self.names.get(..self.universals).unwrap_or(&[]);
        line.wrong_if(!is_among(universals, name), Unknown);
    }

    /// How many regions there are, and how many of them are universal.
    pub fn counts(&self) -> (usize, usize) {
        (self.names.len(), self.universals)
    }
}
