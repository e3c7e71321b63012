// The turn of one pair, but for its search.
#![tactic(auto, unfolding(model::specs::Legs::pair_plan, model::specs::Legs::scored_over, model::specs::Legs::path_over, model::specs::Legs::terminal, model::specs::Lists::when, rules::specs::Code::middle_in, search::specs::Answers::roads_in))]

ghost use Rattle.std.specs.Prelude.{◌≡◌, ◌⊎◌, cond, List, ℕ, ◌<◌, length, true, IfOk};
ghost use Rattle.model.specs.declared.Road.{Road};
ghost use Rattle.model.specs.Numbers.{f0};
ghost use Rattle.model.specs.Search.{found};
ghost use Rattle.model.specs.Legs.{MiddleSearch, pair_plan, scored_over, after_search};
ghost use Rattle.rules.specs.Code.{pair_of, best_of, beats, Within};
ghost use Rattle.search.specs.Answers.{told, roads_in};
ghost use Rattle.pair_plans.specs.Turns.{pair_plan_of, turn_of, way_between, Remembers, PlanRemembers};

use crate::PairPlan;
use model::Limits;
use road_network::road_class;
use rules::{Middle, Pair, PathResult, Scored, TerminalEdge, lengths, routes};
use search::{HeapFull, SearchEnd};

// The plan of a pair.
pub fn plan_pair(limits: Limits, pair: &Pair) -> PairPlan
    ensures means { (search : MiddleSearch) → pair_plan_of search result ≡ pair_plan limits (pair_of pair.now) }
    ensures remembers { (search : MiddleSearch) (nodes : ℕ) → PlanRemembers search nodes result }
{
    let start_permitted = road_class::permits(limits.constraints, pair.start.road);
    let end_permitted = road_class::permits(limits.constraints, pair.end.road);
    if !start_permitted || !end_permitted {
        return PairPlan::Skip;
    }
    if pair.start.road.number == pair.end.road.number {
        return PairPlan::SameEdge(routes::same_edge_scored(limits, pair));
    }
    let bound = pair.middle_max(limits);
    if bound <= 0.0 {
        return PairPlan::Skip;
    }
    PairPlan::Search(bound)
}

// An offset counts only at a road that stays.
fn if_kept(kept: bool, offset: f64) -> f64
    ensures { result ≡ cond kept offset f0 }
{
    if kept { offset } else { 0.0 }
}

// The path over a way of n roads with this cost, as a search within the bound finds it, if its length fits.
fn scored_over(limits: Limits, pair: &Pair, bound: f64, cost: f64, n: usize) -> Option<Scored>
    ensures means { (search : MiddleSearch) (way : List Road) → way_between search pair.now bound ≡ found cost way → best_of search result ≡ scored_over limits (pair_of pair.now) cost way }
    ensures remembers { (search : MiddleSearch) (nodes : ℕ) → Within nodes pair.now → length (roads_in (way_between search pair.now bound)) ≡ n → Remembers search nodes result }
{
    let start_part = pair.start.end_offset();
    let end_part = pair.end.start_offset();
    let total = pair.path_cost(cost);
    if !lengths::fits_path(limits, total) {
        return None;
    }
    let first_stays = lengths::stays(start_part, total);
    let last_stays = lengths::stays(end_part, total);
    let start_offset = if_kept(first_stays, pair.start.start_offset());
    let end_offset = if_kept(last_stays, pair.end.end_offset());
    Some(Scored {
        score: pair.score_of(limits, total),
        path: PathResult {
            total_length: total,
            start_offset_m: start_offset,
            end_offset_m: end_offset,
            head: first_stays.then_some(TerminalEdge {
                road: pair.start.road,
                coverage_m: start_part,
            }),
            middle: Some(Middle {
                start: pair.start.road.target,
                goal: pair.end.road.source,
                bound,
                count: n,
            }),
            tail: last_stays.then_some(TerminalEdge {
                road: pair.end.road,
                coverage_m: end_part,
            }),
        },
    })
}

// What a search leaves of the best so far, by what it found between the two roads.
#[tactic(auto, using(crate::proofs::Told::told_found, crate::proofs::Told::told_nothing, crate::proofs::Told::told_full), unfolding(model::specs::Legs::after_search, search::specs::Answers::roads_in))]
pub fn after_search(
    limits: Limits,
    pair: &Pair,
    best: Option<Scored>,
    bound: f64,
    m: SearchEnd,
) -> Result<Option<Scored>, HeapFull>
    ensures means { (search : MiddleSearch) → m ≡ told (way_between search pair.now bound)
        → turn_of search result ≡ after_search limits (pair_of pair.now) (best_of search best) (way_between search pair.now bound) }
    ensures remembers { (search : MiddleSearch) (nodes : ℕ) → Within nodes pair.now → m ≡ told (way_between search pair.now bound)
        → Remembers search nodes best → IfOk result (Remembers search nodes) }
    ensures own { (search : MiddleSearch) (nodes : ℕ) → Within nodes pair.now → m ≡ told (way_between search pair.now bound)
        → IfOk result (λ b. (b ≡ best) ⊎ (Remembers search nodes b × (beats b best ≡ true))) }
{
    match m {
        SearchEnd::Found(cost, n) => {
            let next = scored_over(limits, pair, bound, cost, n);
            Ok(routes::improve(best, next))
        }
        SearchEnd::Nothing => Ok(best),
        SearchEnd::Full => Err(HeapFull),
    }
}
