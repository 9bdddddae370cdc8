//! The engine of a graph, and what its keepers find out.

ghost use Rattle.std.specs.Prelude.{◌≡◌, ◌↔◌, ℕ};
ghost use Rattle.std.specs.BTreeSet.{contains};
ghost use Rattle.std.specs.Ordering.{nat_cmp};
ghost use Rattle.fixpoint.specs.Rules.{IsLeast};
ghost use Rattle.reach.specs.Reach.{IsReached, ends, rules_of_reach as reach_rules};
ghost use Rattle.reach.specs.declared.Graph.{Graph as TheGraph};
ghost use Rattle.keeper.proofs.OwnLemmas.{edges_lawful};

use crate::Graph;
use fixpoint::{Growth, Rules};
use keeper::{Engine, Owners, push_own};
use nll_sets::Memory;
use std::alloc::Global;
use std::collections::BTreeSet;

/// States that the least solution has exactly the nodes that are reached from the roots. It is what
/// the logs of a run tell, and the log of one keeper alone.
pub fn least_is_reached()
    ensures { (a : TheGraph) (x : ℕ) → IsLeast reach_rules a x ↔ IsReached a x }
{}

impl<'q> Graph<'q> {
    // The roots. In a call's result they are known to have 32 bits.
    fn roots(&self) -> &[u32]
        ensures { result.now ≡ self.now.roots.now }
    {
        self.roots
    }

    // Where the edges from a node lead.
    fn ends(&self, node: u32) -> &[u32]
        ensures { result.now ≡ ends self.now node }
    {
        match self.edges.get(node as usize) {
            Some(ends) => ends,
            None => &[],
        }
    }
}

impl<'q> Rules for Graph<'q> {
    type Fact = u32;

    type Growth = Growth<u32>;

    ghost rules = { reach_rules };

    ghost lawful = { edges_lawful (λ a. a.owners) (λ a. a.roots.now) ends (λ g. g.fact)
        (λ g. g.rank) };

    fn parts(&self) -> u16 {
        self.owners
    }
}

impl<'q> Owners for Graph<'q> {
    fn owner(&self, fact: &u32) -> u16 {
        (*fact % self.owners as u32) as u16
    }
}

impl<'q> Engine for Graph<'q> {
    type Store = BTreeSet<u32>;

    ghost has = { λ store x. contains nat_cmp store x };

    fn growth(fact: u32, rank: u64) -> Growth<u32>
        ensures fact { result.fact ≡ fact }
        ensures rank { result.rank ≡ rank }
    {
        Growth { fact, rank }
    }

    fn fact(growth: &Growth<u32>) -> u32
        ensures { result ≡ growth.now.fact }
    {
        growth.fact
    }

    fn rank(growth: &Growth<u32>) -> u64
        ensures { result ≡ growth.now.rank }
    {
        growth.rank
    }

    fn store(&self, alloc: Global, _me: u16) -> Result<BTreeSet<u32>, Memory> {
        Ok(BTreeSet::new(alloc))
    }

    fn is_proper(&self, fact: &u32) -> bool {
        let _node = *fact;
        true
    }

    fn reads(&self, reader: u16, fact: &u32) -> bool {
        let (owners, reader) = (self.owners as u32, reader as u32);
        let other = *fact % owners != reader;
        let ends = self.ends(*fact);
        ends.iter().any(|end| other && *end % owners == reader)
    }

    fn knows(&self, store: &BTreeSet<u32>, fact: &u32) -> bool {
        store.contains(fact)
    }

    fn begin(&self, me: u16, found: &mut Vec<u32>) -> Result<(), Memory> {
        let roots = self.roots();
        push_own(self, me, roots, found)
    }

    fn enter(
        &self,
        me: u16,
        store: &mut BTreeSet<u32>,
        fact: u32,
        found: &mut Vec<u32>,
    ) -> Result<(), Memory> {
        store.insert(fact)?;
        let ends = self.ends(fact);
        push_own(self, me, ends, found)
    }
}
