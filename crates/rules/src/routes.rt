// Routes and the best of them.
#![tactic(auto, unfolding(model::specs::Legs::same_edge_scored, model::specs::Legs::same_edge_path, model::specs::Legs::best_score, model::specs::Legs::improve, model::specs::Legs::first_or_better, model::specs::Lists::when, crate::specs::Code::middle_in))]

ghost use Rattle.std.specs.Prelude.{◌≡◌, ◌⊎◌, true, None};
ghost use Rattle.model.specs.Legs.{MiddleSearch, same_edge_scored, best_score, improve, first_or_better};
ghost use Rattle.rules.specs.Code.{pair_of, best_of, beats, BestIs};

use crate::{Pair, PathResult, Scored, TerminalEdge};
use model::Limits;

// The path of a pair on the start's road, if its length fits.
pub fn same_edge_scored(limits: Limits, pair: &Pair) -> Option<Scored>
    ensures { BestIs result (same_edge_scored limits (pair_of pair.now)) }
{
    if !pair.fits_same_edge(limits) {
        return None;
    }
    let road = pair.start.road;
    let total = pair.same_edge_length();
    let start_offset = pair.start.start_offset();
    let end_offset = road.length_m * (1.0 - pair.end.candidate.projection_fraction);
    Some(Scored {
        score: pair.score_of(limits, total),
        path: PathResult {
            total_length: total,
            start_offset_m: start_offset,
            end_offset_m: end_offset,
            head: Some(TerminalEdge {
                road,
                coverage_m: total,
            }),
            middle: None,
            tail: None,
        },
    })
}

// The score to beat: f64::MAX where there is no path, as in the definition, so that a path has to stay below it too.
pub fn best_score(best: &Option<Scored>) -> f64
    ensures { (search : MiddleSearch) → result ≡ best_score (best_of search best.now) }
{
    best.map_or(f64::MAX, |s| s.score)
}

// The better of the two: the next path takes the place of the best one only on a strictly lower score.
pub fn improve(best: Option<Scored>, next: Option<Scored>) -> Option<Scored>
    ensures better { (search : MiddleSearch) → best_of search result ≡ improve (best_of search best) (best_of search next) }
    ensures one { (result ≡ best) ⊎ ((result ≡ next) × (beats next best ≡ true)) }
{
    match &next {
        Some(s) if s.score < best_score(&best) => next,
        _ => best,
    }
}

// The same, but the first one counts whatever its score is.
pub fn first_or_better(best: Option<Scored>, next: Option<Scored>) -> Option<Scored>
    ensures better { (search : MiddleSearch) → best_of search result ≡ first_or_better (best_of search best) (best_of search next) }
    ensures one { (result ≡ best) ⊎ ((result ≡ next) × ((best ≡ None) ⊎ (beats next best ≡ true))) }
{
    if best.is_none() {
        return next;
    }
    improve(best, next)
}
