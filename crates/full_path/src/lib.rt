// What a leg leaves: its roads behind those already written, the metres covered of each road, and the road that carries most of them.
#![tactic(auto)]

pub mod coverage;
pub mod path;

ghost use Rattle.std.specs.Prelude.{◌≤◌, length};

// A road by its number, with the metres that are covered of it.
#[derive(Clone, Copy)]
pub struct EdgeCoverage {
    pub edge_idx: usize,
    pub coverage_m: f64,
}

// How a coverage joins those before it: summed with those of its road, as for a line, or as an entry of its own, as for a point along line.
// No plainer as a trait: `add` alone asks for it, and each function down to there would have a type parameter.
#[derive(Clone, Copy)]
pub enum Covering {
    PerRoad,
    PerPass,
}

// The coverages so far, in the order of the roads' first traversal, in two areas that are lent: the road of each by its number, and its metres.
// Two slices and a count: the C interface lends them so.
// No plainer with the sheet of their roads in here (`OnRoads`): a call which also has the areas would have to say that both hold the same sheet.
#[derive(Drop)]
pub struct Coverages<'a> {
    pub roads: &'a mut [usize],
    pub metres: &'a mut [f64],
    pub count: usize,
    ghost within: { (count ≤ length roads.now) × (count ≤ length metres.now) },
}
