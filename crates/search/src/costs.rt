// The search that a query asks for: the permitted roads, the penalties, the distances to the goal, and what a road offers.
ghost use Rattle.std.specs.Prelude.{◌≡◌, ◌<◌, []};
ghost use Rattle.std.specs.Option.{ForSome, ForNone};
ghost use Rattle.model.specs.View.{distances_to};
ghost use Rattle.sheet.specs.Contents.{contents};
ghost use Rattle.sheet.specs.Goals.{goal_at};

use crate::Query;
use crate::areas::{Entry, Label};
use model::Road;
use road_network::road_class;
use sheet::Sheet;

// A search over a sheet: what it is asked, and the goal's row, which is found once. The sheet is that of the areas; read through them it misses the bar of speed, as in relax.rt.
#[derive(Clone, Copy)]
pub struct Search<'a> {
    pub sheet: Sheet<'a>,
    pub query: Query,
    pub goal_row: Option<usize>,
    ghost row: { ForSome goal_row (λ k. (k < sheet.counts.g) × ((goal_at (contents sheet) k).distances ≡ distances_to (contents sheet).goals query.goal)) },
    ghost no_row: { ForNone goal_row (distances_to (contents sheet).goals query.goal ≡ []) },
}

impl<'a> Search<'a> {
    ghost use Rattle.std.specs.Prelude.{ℕ, List, Some, IfSome};
    ghost use Rattle.std.proofs.Math.Option.{Option};
    ghost use Rattle.model.specs.declared.Road.{Road};
    ghost use Rattle.model.specs.View.{permits, penalty};
    ghost use Rattle.model.specs.Search.{label_at, real_of, offered};
    ghost use Rattle.model.specs.Search as astar;
    ghost use Rattle.search.specs.Query.{query_at};
    ghost use Rattle.search.specs.Answers.{entry_as, cost_of, offer_as};

    pub fn new(sheet: &Sheet<'a>, query: Query) -> Search<'a>
        ensures { (result.sheet ≡ sheet.now) × (result.query ≡ query) }
    {
        let goal_row = sheet.goal_row(query.goal);
        Search {
            sheet: *sheet,
            query,
            goal_row,
        }
    }

    // Whether the search may take road r.
    pub fn permits(&self, r: Road) -> bool
        ensures { result ≡ permits self.now.query.constraints r }
    {
        road_class::permits(self.query.constraints, r)
    }

    // The distance from node v to the goal, from the goal's row; 0 where there is none.
    #[tactic(auto, using(crate::proofs::Roads::heuristic_at, crate::proofs::Roads::heuristic_missing))]
    pub fn heuristic(&self, v: usize) -> f64
        requires { v < self.now.sheet.counts.n }
        ensures { result ≡ (query_at self.now).heuristic v }
    {
        match self.goal_row {
            Some(k) => self.sheet.goal_distance(k, v),
            None => 0.0,
        }
    }

    // The label that road r offers its target from an entry whose node has this real cost; `there` is the penalised cost of the target's label.
    pub fn offer(&self, entry: Entry, real: f64, r: Road, there: Option<f64>) -> Option<Label>
        ensures by_road { IfSome result (λ l. l.came_from ≡ Some r.number) }
        ensures offered { (roads : ℕ → Road) (ls : List (Option astar.Label)) → roads r.number ≡ r → real_of (label_at ls entry.node) ≡ real → cost_of (label_at ls r.target) ≡ there
            → offer_as roads result ≡ offered (query_at self.now) (entry_as entry) ls r }
    {
        let a = real + r.length_m;
        if self.query.max_cost < a {
            return None;
        }
        let b = entry.g_score + r.length_m + road_class::penalty(self.query.constraints, r);
        if there.is_some_and(|cost| cost <= b) {
            return None;
        }
        Some(Label {
            real: a,
            penalised: b,
            came_from: Some(r.number),
        })
    }
}
