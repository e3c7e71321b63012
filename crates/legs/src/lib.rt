// One leg: the way between two candidates' roads, the pairs one after the other, and find_best_path.
#![tactic(auto)]

pub mod middle;
pub mod tries;

ghost use Rattle.bounds.specs.Amounts.{Amount};

use candidates::candidate::Candidate;
use model::Limits;
use rules::{PathResult, same_edge};
use search::HeapFull;
use search::areas::SearchAreas;

// A leg, by what it accepts. Its penalties are amounts, so that labels never fall along a way.
#[derive(Clone, Copy)]
pub struct Leg {
    pub limits: Limits,
    ghost priced: { Amount limits.constraints.slip_road_cost_penalty × Amount limits.constraints.access_road_cost_penalty },
}

// Why a leg has no path.
#[derive(Clone, Copy, PartialEq, Eq, Debug)]
pub enum LegError {
    NoPath,
    HeapFull,
}

impl From<HeapFull> for LegError {
    ghost use Rattle.std.specs.Prelude.{◌≡◌};
    ghost use Rattle.legs.specs.declared.LegError.{LegError};

    ghost from_gives = { λ _ e. e ≡ LegError.HeapFull };

    fn from(_full: HeapFull) -> LegError {
        LegError::HeapFull
    }
}

impl Leg {
    ghost use Rattle.std.specs.Prelude.{◌≡◌, IfOk};
    ghost use Rattle.model.specs.Legs.{find_best_path};
    ghost use Rattle.sheet.specs.Contents.{contents};
    ghost use Rattle.candidates.specs.Found.{held, CandidatesReady};
    ghost use Rattle.search.specs.Areas.{SameRoom};
    ghost use Rattle.legs.specs.Found.{search_of, leg_end_of, Led};

    // The leg's best route from its starts to its ends. A solution on one road wins outright; else the pairs decide, and the winning pair is searched once more, so that the marks lead back over its roads.
    // Both lists and `CandidatesReady` stand here and in what this calls, no plainer otherwise: it is about the sheet too, which the areas have, so a struct of all three would be made for one call.
    #[tactic(auto, using(crate::proofs::Ending::outright, crate::proofs::Ending::by_pairs, rules::proofs::Alone::best_alone), unfolding(model::specs::Legs::next_pair, model::specs::Legs::leg_end))]
    pub fn find_best_path(
        &self,
        starts: &[Candidate],
        ends: &[Candidate],
        areas: &mut SearchAreas<'_>,
    ) -> Result<PathResult, LegError>
        requires ready { CandidatesReady areas.old.sheet.counts starts.now × CandidatesReady areas.old.sheet.counts ends.now }
        ensures same_room { SameRoom areas.old areas.new }
        ensures means { leg_end_of (search_of self.now areas.old) result
            ≡ find_best_path self.now.limits (search_of self.now areas.old) (held (contents areas.old.sheet) starts.now) (held (contents areas.old.sheet) ends.now) }
        ensures led { IfOk result (λ route. Led (search_of self.now areas.old) areas.new route.middle) }
    {
        let sheet = areas.sheet;
        let single = same_edge::try_same_edge_solution(&sheet, self.limits, starts, ends);
        if let Some(best) = single {
            return Ok(best.path);
        }
        // Tried by `ok_or`, and the proof did not close.
        let Some(best) = self.try_pairs(starts, ends, areas)? else {
            return Err(LegError::NoPath);
        };
        self.search_again(best.path.middle, areas);
        Ok(best.path)
    }
}
