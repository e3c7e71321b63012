// The best path on one road.
#![tactic(auto, unfolding(model::specs::Legs::close, model::specs::Legs::take_close))]

ghost use Rattle.std.specs.Prelude.{◌≡◌, ◌⊎◌, map, ◌<◌};
ghost use Rattle.sheet.specs.Contents.{contents};
ghost use Rattle.model.specs.Lists.{fold};
ghost use Rattle.model.specs.Legs.{MiddleSearch, pair, pairs, same_edge_scored, close, take_close, try_same_edge_solution};
ghost use Rattle.candidates.specs.Found.{at_road, held, CandidatesReady};
ghost use Rattle.rules.specs.Code.{pair_of, best_of, BestIs, Named};

use crate::{Pair, Scored, routes};
use candidates::candidate::Candidate;
use model::Limits;
use road_network::road_class;
use sheet::Sheet;

// Whether both points lie within 10 metres (10 included) of one road that the leg may use.
fn close(limits: Limits, pair: &Pair) -> bool
    ensures { result ≡ close limits (pair_of pair.now) }
{
    pair.start.candidate.distance_m <= 10.0
        && pair.end.candidate.distance_m <= 10.0
        && pair.start.road.number == pair.end.road.number
        && road_class::permits(limits.constraints, pair.start.road)
}

// The best so far after one pair.
fn take_close(limits: Limits, best: Option<Scored>, pair: &Pair) -> Option<Scored>
    ensures taken { (search : MiddleSearch) → best_of search result ≡ take_close limits (best_of search best) (pair_of pair.now) }
    ensures one { (result ≡ best) ⊎ BestIs result (same_edge_scored limits (pair_of pair.now)) }
{
    if close(limits, pair) {
        routes::first_or_better(best, routes::same_edge_scored(limits, pair))
    } else {
        best
    }
}

// The best so far after the pairs of one start. Only an end on the start's road can change it, so roads are read for such a pair alone.
#[tactic(auto, unfolding(model::specs::Lists::fold))]
fn take_ends(
    sheet: &Sheet<'_>,
    limits: Limits,
    best: Option<Scored>,
    start: Candidate,
    ends: &[Candidate],
) -> Option<Scored>
    requires { (start.edge_idx < sheet.now.counts.e) × Named sheet.now.counts ends.now }
    ensures { (search : MiddleSearch) → best_of search result ≡ fold (take_close limits) (best_of search best) (map (pair (at_road (contents sheet.now) start)) (map (at_road (contents sheet.now)) ends.now)) }
{
    let mut best = best;
    for end in ends {
        if end.edge_idx == start.edge_idx {
            let pair = Pair::new(sheet, start, *end);
            best = take_close(limits, best, &pair);
        }
    }
    best
}

// The best path on one road over all pairs with both points close to it, if there is one. It wins outright.
#[tactic(auto, unfolding(model::specs::Lists::fold, model::specs::Legs::pairs, model::specs::Legs::try_same_edge_solution, candidates::specs::Found::held))]
pub fn try_same_edge_solution(
    sheet: &Sheet<'_>,
    limits: Limits,
    starts: &[Candidate],
    ends: &[Candidate],
) -> Option<Scored>
    requires { CandidatesReady sheet.now.counts starts.now × CandidatesReady sheet.now.counts ends.now }
    ensures { BestIs result (try_same_edge_solution limits (pairs (held (contents sheet.now) starts.now) (held (contents sheet.now) ends.now))) }
{
    let mut best = None;
    for start in starts {
        best = take_ends(sheet, limits, best, *start, ends);
    }
    best
}
