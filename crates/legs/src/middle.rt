// What lies between two roads of a pair.
use crate::Leg;
use rules::Middle;
use search::areas::SearchAreas;
use search::{Query, SearchEnd};

impl Leg {
    ghost use Rattle.std.specs.Prelude.{◌≡◌, ◌<◌};
    ghost use Rattle.pair_plans.specs.Turns.{MiddleRemembers};
    ghost use Rattle.search.specs.Areas.{SameRoom};
    ghost use Rattle.search.specs.Answers.{told, roads_in};
    ghost use Rattle.legs.specs.Found.{search_of, Led, LedBy};

    // What lies between the nodes `start` and `goal`. The marks lead back over its roads.
    #[tactic(auto, using(crate::proofs::Middles::already_there, crate::proofs::Middles::searched, crate::proofs::Middles::led_there))]
    pub fn middle(
        &self,
        start: usize,
        goal: usize,
        bound: f64,
        areas: &mut SearchAreas<'_>,
    ) -> SearchEnd
        requires { (start < areas.old.sheet.counts.n) × (goal < areas.old.sheet.counts.n) }
        ensures same_room { SameRoom areas.old areas.new }
        ensures means { result ≡ told (search_of self.now areas.old start goal bound) }
        ensures led { LedBy goal areas.new result (roads_in (search_of self.now areas.old start goal bound)) }
    {
        if start == goal {
            return SearchEnd::Found(0.0, 0);
        }
        let query = Query {
            start,
            goal,
            max_cost: bound,
            constraints: self.limits.constraints,
        };
        search::bounded_astar(query, areas)
    }

    // The search of a route's middle once more, if it has one: the marks lead back over its roads afterwards. It finds what it found, so its answer needs no look: where that has roads, it is not full (`found_again`); over no roads the marks lead back whatever it tells.
    #[tactic(auto, using(crate::proofs::Middles::led_again))]
    pub fn search_again(&self, middle: Option<Middle>, areas: &mut SearchAreas<'_>)
        requires remembers { MiddleRemembers (search_of self.now areas.old) areas.old.sheet.counts.n middle }
        ensures same_room { SameRoom areas.old areas.new }
        ensures led { Led (search_of self.now areas.old) areas.new middle }
    {
        if let Some(m) = middle {
            self.middle(m.start, m.goal, m.bound, areas);
        }
    }
}
