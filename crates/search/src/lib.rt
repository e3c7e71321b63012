// The bounded A* search over a well-formed sheet.
#![tactic(auto)]

pub mod areas;
mod costs;
mod relax;
pub mod route;
mod turns;

ghost use Rattle.std.specs.Prelude.{◌≡◌, ℕ, ◌<◌, true, Ok, IfOk};
ghost use Rattle.model.specs.Search.{search_within, bounded_astar};
ghost use Rattle.bounds.specs.Amounts.{Amount};
ghost use Rattle.sheet.specs.Contents.{contents};
ghost use Rattle.search.specs.Query.{query_on, query_at};
ghost use Rattle.search.specs.Areas.{labels_at, SameRoom, Labelled, Ready};
ghost use Rattle.search.specs.Answers.{end_of_search, told, roads_in, Traced};

use crate::areas::SearchAreas;
use crate::costs::Search;
use model::AStarConstraints;

// What a search is asked: the way from `start` to `goal`, no path longer than `max_cost` metres, under the constraints of its leg.
#[derive(Clone, Copy)]
pub struct Query {
    pub start: usize,
    pub goal: usize,
    pub max_cost: f64,
    pub constraints: AStarConstraints,
}

// No slot is left for an entry.
#[derive(Clone, Copy, PartialEq, Eq, Debug)]
pub struct HeapFull;

// How a search ends: with the real cost and the number of roads, with no way, or with no slot left for an entry.
// No Result: the scope names this form, an enum whose found case carries the real cost and the count.
#[derive(Clone, Copy)]
pub enum SearchEnd {
    Found(f64, usize),
    Nothing,
    Full,
}

// The labels and entries of a whole search, from the start's on; whether the goal came up.
fn search_from_start(search: &Search<'_>, areas: &mut SearchAreas<'_>) -> Result<bool, HeapFull>
    requires { (search.now.query.start < areas.old.sheet.counts.n) × (areas.old.sheet ≡ search.now.sheet) }
    ensures same_room { SameRoom areas.old areas.new }
    ensures stands { IfOk result (λ arrived. Ready search.now areas.new) }
    ensures arrived { result ≡ Ok true → Labelled areas.new search.now.query.goal }
    ensures found { (steps : ℕ) → end_of_search steps (query_at search.now) result (labels_at search.now.sheet areas.new)
        ≡ search_within steps areas.old.slots areas.old.slots (query_at search.now) search.now.query.start }
{
    let start = search.query.start;
    let far = search.heuristic(start);
    areas.begin(start, far);
    turns::run_search(search, areas)
}

// The bounded A* search over the sheet of the areas, from `query.start` to `query.goal`, with as many heap entries as the areas have slots. Where it is found, the roads lead back from the goal by `came_from`.
// The penalties are amounts, so that labels never fall along a way and the walk back needs no test for its end: those of the settings are (`slip_amount`, `access_amount`).
pub fn bounded_astar(query: Query, areas: &mut SearchAreas<'_>) -> SearchEnd
    requires nodes { (query.start < areas.old.sheet.counts.n) × (query.goal < areas.old.sheet.counts.n) }
    requires amounts { Amount query.constraints.slip_road_cost_penalty × Amount query.constraints.access_road_cost_penalty }
    ensures same_room { SameRoom areas.old areas.new }
    ensures found { result ≡ told (bounded_astar areas.old.slots (query_on (contents areas.old.sheet) query) query.start) }
    ensures traced { Traced (contents areas.old.sheet) areas.old.sheet.counts query.goal areas.new.came_from.now result
        (roads_in (bounded_astar areas.old.slots (query_on (contents areas.old.sheet) query) query.start)) }
{
    let sheet = areas.sheet;
    let search = Search::new(&sheet, query);
    let arrived = search_from_start(&search, areas);
    route::end_of_search(&search, arrived, areas)
}
