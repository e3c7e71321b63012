// The pairs of a leg, one after the other.
use crate::Leg;
use candidates::candidate::Candidate;
use candidates::find::MOST_TRIED;
use pair_plans::{PairPlan, turns};
use rules::{Pair, Scored, routes};
use search::HeapFull;
use search::areas::SearchAreas;

impl Leg {
    ghost use Rattle.std.specs.Prelude.{◌≡◌, ◌⊎◌, ◌<◌, true, IfOk};
    ghost use Rattle.std.proofs.Math.Option.{none};
    ghost use Rattle.model.specs.Lists.{sort};
    ghost use Rattle.model.specs.Legs.{pair, pairs, by_sum, try_pair, try_pairs};
    ghost use Rattle.sheet.specs.Contents.{contents};
    ghost use Rattle.candidates.specs.Found.{at_road, held, CandidatesReady};
    ghost use Rattle.rules.specs.Code.{best_of, beats};
    ghost use Rattle.pair_plans.specs.Turns.{turn_of, Remembers};
    ghost use Rattle.search.specs.Areas.{SameRoom};
    ghost use Rattle.legs.specs.Found.{search_of, end_after_pairs};

    // The best so far after one pair: by its plan, and by a search if it needs one.
    #[tactic(auto, unfolding(model::specs::Legs::try_pair, model::specs::Legs::after_pair))]
    pub fn try_pair(
        &self,
        start: Candidate,
        end: Candidate,
        best: Option<Scored>,
        areas: &mut SearchAreas<'_>,
    ) -> Result<Option<Scored>, HeapFull>
        requires roads { (start.edge_idx < areas.old.sheet.counts.e) × (end.edge_idx < areas.old.sheet.counts.e) }
        ensures same_room { SameRoom areas.old areas.new }
        ensures means { turn_of (search_of self.now areas.old) result
            ≡ try_pair self.now.limits (search_of self.now areas.old) (best_of (search_of self.now areas.old) best) (pair (at_road (contents areas.old.sheet) start) (at_road (contents areas.old.sheet) end)) }
        ensures remembers { Remembers (search_of self.now areas.old) areas.old.sheet.counts.n best → IfOk result (Remembers (search_of self.now areas.old) areas.old.sheet.counts.n) }
        ensures own { IfOk result (λ b. (b ≡ best) ⊎ (Remembers (search_of self.now areas.old) areas.old.sheet.counts.n b × (beats b best ≡ true))) }
    {
        let sheet = areas.sheet;
        let pair = Pair::new(&sheet, start, end);
        match turns::plan_pair(self.limits, &pair) {
            PairPlan::Skip => Ok(best),
            PairPlan::SameEdge(way) => Ok(routes::improve(best, way)),
            PairPlan::Search(bound) => {
                let from = pair.start.road.target;
                let to = pair.end.road.source;
                let found = self.middle(from, to, bound, areas);
                turns::after_search(self.limits, &pair, best, bound, found)
            }
        }
    }

    // The best after the pairs in the order of their sums, until one cannot win or the heap is used up.
    pub fn try_pairs(
        &self,
        starts: &[Candidate],
        ends: &[Candidate],
        areas: &mut SearchAreas<'_>,
    ) -> Result<Option<Scored>, HeapFull>
        requires ready { CandidatesReady areas.old.sheet.counts starts.now × CandidatesReady areas.old.sheet.counts ends.now }
        ensures same_room { SameRoom areas.old areas.new }
        ensures means { end_after_pairs (search_of self.now areas.old) result
            ≡ try_pairs self.now.limits (search_of self.now areas.old) (sort by_sum (pairs (held (contents areas.old.sheet) starts.now) (held (contents areas.old.sheet) ends.now))) none }
        ensures remembers { IfOk result (Remembers (search_of self.now areas.old) areas.old.sheet.counts.n) }
    {
        // Of each start how many ends were taken. An array of ten: no heap, fixed memory.
        let mut heads = [0usize; MOST_TRIED];
        let mut best = None;
        while let Some(next) = pairs::next_pair(starts, ends, &mut heads) {
            let first = starts[next.start];
            let last = ends[next.end];
            if routes::best_score(&best) <= first.score + last.score {
                return Ok(best);
            }
            best = self.try_pair(first, last, best, areas)?;
        }
        Ok(best)
    }
}
