// One pair of candidates of a leg: its plan, and what comes of a search for it.
#![tactic(auto)]

pub mod turns;

use rules::Scored;

// What is done for a pair: it is skipped, it may have a path on one edge, or it needs a search within these metres.
#[derive(Clone, Copy)]
pub enum PairPlan {
    Skip,
    SameEdge(Option<Scored>),
    Search(f64),
}
