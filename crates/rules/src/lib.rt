// The rules of one leg by value: what it accepts, the lengths and scores of its paths, and the best path on one road.
#![tactic(auto)]

ghost use Rattle.std.specs.Prelude.{◌≡◌, ◌<◌};
ghost use Rattle.model.specs.Legs.{pair};
ghost use Rattle.sheet.specs.Contents.{contents};
ghost use Rattle.candidates.specs.Found.{at_road};
ghost use Rattle.rules.specs.Code.{pair_of, Within};

use candidates::candidate::Candidate;
use model::Road;
use sheet::Sheet;

pub mod floats;
pub mod lengths;
pub mod limits;
pub mod routes;
pub mod same_edge;

// A candidate with its road.
#[derive(Clone, Copy)]
pub struct Placed {
    pub candidate: Candidate,
    pub road: Road,
}

// The start and the end of a path. No plainer with the leg's limits in it: the definition's rules take the two side by side, and a leg has one set of limits and many pairs.
#[derive(Clone, Copy)]
pub struct Pair {
    pub start: Placed,
    pub end: Placed,
}

impl Pair {
    // Two candidates on the roads of the sheet.
    pub fn new(sheet: &Sheet<'_>, start: Candidate, end: Candidate) -> Pair
        requires { (start.edge_idx < sheet.now.counts.e) × (end.edge_idx < sheet.now.counts.e) }
        ensures stands { pair_of result ≡ pair (at_road (contents sheet.now) start) (at_road (contents sheet.now) end) }
        ensures within { Within sheet.now.counts.n result }
    {
        Pair {
            start: Placed {
                candidate: start,
                road: sheet.road(start.edge_idx),
            },
            end: Placed {
                candidate: end,
                road: sheet.road(end.edge_idx),
            },
        }
    }
}

// A terminal road of a path, with the metres that are covered of it.
#[derive(Clone, Copy)]
pub struct TerminalEdge {
    pub road: Road,
    pub coverage_m: f64,
}

// The roads between the terminal ones: what a search from `start` to `goal` within `bound` metres finds, `count` of them.
#[derive(Clone, Copy)]
pub struct Middle {
    pub start: usize,
    pub goal: usize,
    pub bound: f64,
    pub count: usize,
}

// A path: its length and offsets, the first road if it is kept, the roads between, and the last road if it is kept. A path on one road has none between.
#[derive(Clone, Copy)]
pub struct PathResult {
    pub total_length: f64,
    pub start_offset_m: f64,
    pub end_offset_m: f64,
    pub head: Option<TerminalEdge>,
    pub middle: Option<Middle>,
    pub tail: Option<TerminalEdge>,
}

// A path with its score. The best path so far is an `Option` of one.
#[derive(Clone, Copy)]
pub struct Scored {
    pub score: f64,
    pub path: PathResult,
}
