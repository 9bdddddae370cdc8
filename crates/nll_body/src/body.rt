//! A body, with its graph and its labels.

ghost use Rattle.std.specs.Prelude.{◌≡◌, ◌≢◌, ◌↔◌, ◌<◌, ◌++◌, ℕ, length, Some};
ghost use Rattle.std.specs.Prelude.{AllPairs, Contains, IfErr, IfOk, OnOk};
ghost use Rattle.nll_sets.specs.Prefix.{IsPrefix};
ghost use Rattle.nll_types.specs.Declarations.{structs_of};
ghost use Rattle.nll_types.specs.DropRegions.{IsDropRegion};
ghost use Rattle.nll_types.specs.Places.{type_of, path_of};
ghost use Rattle.nll_types.specs.Structs.{IsWellFormed};
ghost use Rattle.nll_types.specs.Types.{TypeTree, HasRegion};
ghost use Rattle.nll_types.specs.TypesAt.{meant_type};
ghost use Rattle.nll_types.specs.Views.{tree};
ghost use Rattle.nll_body.specs.Effects.{variables_used, defined, dropped};
ghost use Rattle.nll_body.specs.Statements.{Statement as standing};
ghost use Rattle.nll_body.specs.Typed.{IsTypedBody, meant_at};
ghost use Rattle.nll_body.specs.Bodies.{HasType, IsGraphOf, StandsAt, labels_of};
ghost use Rattle.nll_body.specs.Parts.{AreTyped, body_of};
ghost use Rattle.nll_body.specs.Sound.{IsSoundBody};

use crate::edges::graph_of;
use crate::parts::BodyParts;
use crate::statements::Statements;
use crate::typed::{StatementAt, TypedBody};
use nll_format::Labels;
use nll_problem::{BuildError, Graph, RegionId};
use nll_sets::Memory;
use nll_types::{
    BodyTypes, Place, Structs, Ty, TypeAt, Typed, behind, types_of_places_are_well_formed,
};
use std::alloc::Global;
use std::marker::Model;

/// A body. Points, variables and regions go by their numbers.
pub struct Body {
    labels: Labels,
    outlives: Vec<(u32, u32)>,
    asserts: Vec<(u32, u32)>,
    types: BodyTypes,
    variables: Vec<Typed>,
    points: Statements,
    graph: Graph,
}

// A derived drop would be proved anew in each crate that drops one.
impl Drop for Body {
    fn drop(self) {
        let Body {
            labels: _,
            outlives: _,
            asserts: _,
            types: _,
            variables: _,
            points: _,
            graph: _,
        } = self;
    }
}

impl Model for Body {
    ghost use Rattle.std.specs.Coded.{codes, Coded};
    ghost use Rattle.nll_types.specs.TypeCodes.{Step, tree_code, trees_code};
    ghost use Rattle.nll_body.specs.Flat.{statements_in};
    ghost use Rattle.nll_body.specs.Bodies.{BodyText};
    ghost use Rattle.nll_body.specs.Kept.{kept_body, IsBodyKept};
    ghost use Rattle.nll_body.specs.Typed.{HaveRows};

    ghost Value = { BodyText };

    ghost coded = { let step : Coded Step = Prim.hlevel codes in
        Prim.hlevel (codes, tree_code step, trees_code step) };

    ghost view = { λ b.
        kept_body b.labels b.outlives.items b.asserts.items b.types b.variables.items
        b.points b.graph };

    ghost invariant = { λ b. IsBodyKept
        (kept_body b.labels b.outlives.items b.asserts.items b.types b.variables.items
        b.points b.graph)
        b.labels b.graph
        × HaveRows b.types b.variables.items (statements_in b.points) };
}

// The body of these parts, whose graph this is.
fn assembled(parts: BodyParts, graph: Graph) -> Body
    requires sound { IsSoundBody (body_of parts) }
    requires typed { AreTyped parts }
    requires graph { IsGraphOf (body_of parts) graph }
    ensures { result ≡ body_of parts }
{
    Body {
        labels: Labels::with_blocks(parts.names, parts.starts),
        outlives: parts.outlives,
        asserts: parts.asserts,
        types: parts.types,
        variables: parts.variables,
        points: parts.points,
        graph,
    }
}

impl Body {
    /// The body of these parts.
    ///
    /// # Errors
    /// `Memory` alone.
    pub fn new(alloc: Global, parts: BodyParts) -> Result<Body, BuildError>
        requires sound { IsSoundBody (body_of parts) }
        requires typed { AreTyped parts }
        ensures ok { IfOk result (λ body. body ≡ body_of parts) }
        ensures err { IfErr result (λ e. e ≡ BuildError.Memory) }
    {
        let starts = parts.starts.as_slice();
        let told = graph_of(alloc, parts.universals, starts, &parts.points);
        match told {
            Ok(graph) => Ok(assembled(parts, graph)),
            Err(error) => {
                drop(parts);
                Err(error)
            }
        }
    }

    /// The graph of its points.
    pub fn graph(&self) -> &Graph
        ensures { IsGraphOf self.now result.now }
    {
        &self.graph
    }

    /// The names of its regions and points.
    pub fn labels(&self) -> &Labels
        ensures { result.now ≡ labels_of self.now }
    {
        &self.labels
    }

    /// Its labels alone. Allocates nothing.
    pub fn into_labels(self) -> Labels
        ensures { result ≡ labels_of self }
    {
        let Body {
            labels,
            outlives: _,
            asserts: _,
            types: _,
            variables: _,
            points: _,
            graph: _,
        } = self;
        labels
    }

    /// How many points there are; they are numbered from 0.
    pub fn points(&self) -> u32
        ensures value { result ≡ length self.now.points }
        ensures sound { IsSoundBody self.now }
    {
        self.graph.points()
    }

    /// How many regions are universal, `'static` included.
    pub fn universals(&self) -> u32
        ensures { result ≡ self.now.universals }
    {
        self.graph.universals()
    }

    /// How many regions there are, the universal ones included.
    pub fn regions(&self) -> usize
        ensures { result ≡ length self.now.names }
    {
        self.labels.regions()
    }

    /// How many variables there are; they are numbered from 0.
    pub fn variables(&self) -> usize
        ensures value { result ≡ length self.now.variables }
        ensures sound { IsSoundBody self.now }
    {
        self.variables.len()
    }

    /// Its types, and its variables and statements with their types by number.
    pub fn typed(&self) -> TypedBody<'_>
        ensures { IsTypedBody self.now result }
    {
        TypedBody {
            types: &self.types,
            variables: self.variables.as_slice(),
            points: &self.points,
        }
    }

    /// The pairs of universal regions of which the first is known to outlive the second.
    pub fn outlives(&self) -> &[(u32, u32)]
        ensures { result.now ≡ self.now.outlives }
    {
        self.outlives.as_slice()
    }

    /// The pairs of regions of which the first must hold, at all points, what the second holds.
    pub fn asserts(&self) -> &[(u32, u32)]
        ensures { result.now ≡ self.now.asserts }
    {
        self.asserts.as_slice()
    }

    /// The structs that its types name.
    pub fn structs(&self) -> &Structs
        ensures { structs_of result.now ≡ self.now.structs }
    {
        self.types.table.structs()
    }

    /// The statement or terminator at a point. Takes no memory.
    pub fn line_at(&self, point: u32) -> StatementAt<'_>
        requires { point < length self.now.points }
        ensures { StandsAt self.now point (meant_at result) }
    {
        StatementAt {
            statement: self.points.at(point as usize),
            statements: &self.points,
            types: &self.types,
        }
    }

    /// The type of a variable, where it is kept. Takes no memory.
    pub fn var_type(&self, variable: u32) -> TypeAt<'_>
        requires { variable < length self.now.variables }
        ensures value { HasType self.now variable (meant_type result) }
        ensures well_formed { IsWellFormed self.now.structs (length self.now.names) 0
            (meant_type result) }
    {
        let types = &self.types;
        let ty = self.variables[variable as usize];
        TypeAt { types, ty }
    }

    // The type of a variable as a tree.
    fn variable_tree(&self, alloc: Global, variable: u32) -> Result<Ty, Memory>
        requires { variable < length self.now.variables }
        ensures value { IfOk result (λ t. HasType self.now variable (tree t)) }
        ensures well_formed { IfOk result
            (λ t. IsWellFormed self.now.structs (length self.now.names) 0 (tree t)) }
    {
        self.var_type(variable).tree(alloc)
    }

    /// The regions that are written in the type of a variable, each once.
    ///
    /// # Errors
    /// `Memory` alone.
    pub fn var_regions(&self, alloc: Global, variable: u32) -> Result<Vec<RegionId>, Memory>
        requires { variable < length self.now.variables }
        ensures each { IfOk result (λ v. (t : TypeTree) → HasType self.now variable t
            → (r : ℕ) → Contains v.items r ↔ HasRegion t r) }
        ensures once { IfOk result (λ v. AllPairs (λ q r. q ≢ r) v.items) }
    {
        let ty = self.variable_tree(alloc, variable)?;
        let found = self.structs().regions(alloc, &ty);
        // Early drop.
        drop(ty);
        found
    }

    /// The drop regions of the type of a variable, each once.
    ///
    /// # Errors
    /// `Memory` alone.
    ///
    /// # Source
    /// RFC 2094, "Drop".
    pub fn var_drop_regions(&self, alloc: Global, variable: u32) -> Result<Vec<RegionId>, Memory>
        requires { variable < length self.now.variables }
        ensures each { IfOk result (λ v. (t : TypeTree) → HasType self.now variable t
            → (r : ℕ) → Contains v.items r ↔ IsDropRegion self.now.structs t r) }
        ensures once { IfOk result (λ v. AllPairs (λ q r. q ≢ r) v.items) }
    {
        let ty = self.variable_tree(alloc, variable)?;
        let found = self.structs().drop_regions(alloc, &ty);
        // Early drop.
        drop(ty);
        found
    }

    /// The type of a place that has one.
    ///
    /// # Errors
    /// `Memory` alone.
    pub fn place_type(&self, alloc: Global, place: &Place) -> Result<Ty, Memory>
        requires { (t : TypeTree)
            × (type_of self.now.structs self.now.variables (path_of place.now) ≡ Some t) }
        ensures value { IfOk result (λ t.
            type_of self.now.structs self.now.variables (path_of place.now) ≡ Some (tree t)) }
        ensures well_formed { IfOk result (λ t.
            IsWellFormed self.now.structs (length self.now.names) 0 (tree t)) }
    {
        types_of_places_are_well_formed();
        // Clause call.
        let _ = self.points();
        let ty = self.variable_tree(alloc, place.variable())?;
        match behind(alloc, self.structs(), ty, place.projections())? {
            Some(ty) => Ok(ty),
            None => unreachable!(),
        }
    }

    /// Appends the variables that are used at a point.
    ///
    /// # Source
    /// RFC 2094, "Liveness".
    pub fn uses(&self, point: u32, used: &mut Vec<u32>) -> Result<(), Memory>
        requires { point < length self.now.points }
        ensures ok { OnOk result ((i : standing ℕ TypeTree) → StandsAt self.now point i
            → used.new.items ≡ used.old.items ++ variables_used i) }
        ensures begins { IsPrefix used.old.items used.new.items }
    {
        self.points.uses(self.points.at(point as usize), used)
    }

    /// The variable that is defined at a point.
    ///
    /// # Source
    /// RFC 2094, "Liveness".
    pub fn defines(&self, point: u32) -> Option<u32>
        requires { point < length self.now.points }
        ensures { (i : standing ℕ TypeTree) → StandsAt self.now point i → result ≡ defined i }
    {
        self.points.defines(self.points.at(point as usize))
    }

    /// The variable that is dropped at a point.
    pub fn drops(&self, point: u32) -> Option<u32>
        requires { point < length self.now.points }
        ensures { (i : standing ℕ TypeTree) → StandsAt self.now point i → result ≡ dropped i }
    {
        self.points.drops(self.points.at(point as usize))
    }
}
