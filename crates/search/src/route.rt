// The roads that a search found: from its marks, back from the goal.
ghost use Rattle.std.specs.Prelude.{◌≡◌, [], ◌++◌, map, ◌-◌, ◌≤◌, ◌<◌, length, drop, Float, List, true, Ok};
ghost use Rattle.model.specs.Sheet.{road_at};
ghost use Rattle.model.specs.Search.{trace};
ghost use Rattle.sheet.specs.Contents.{contents};
ghost use Rattle.search.specs.Query.{query_at};
ghost use Rattle.search.specs.Areas.{labels_of, labels_at, Back, back_way, LeadsBack, LeadsBack-prop};
ghost use Rattle.search.specs.Answers.{end_of_search, told, roads_in, Traced};

use crate::areas::SearchAreas;
use crate::costs::Search;
use crate::{HeapFull, SearchEnd};
use sheet::Sheet;

// How many roads lead back from the goal to the start. A mark is no road's number.
// A `while`, since a mark is followed and the count is what is asked; over the marks as they lie, since a `Trace` wants the count first.
fn count_back(sheet: &Sheet<'_>, came_from: &[usize], goal: usize) -> usize
    requires { (goal < sheet.now.counts.n) × Back sheet.now.counts.n sheet.now.counts.e (road_at (contents sheet.now)) came_from.now goal }
    ensures { (result ≤ sheet.now.counts.n - 1) × LeadsBack (road_at (contents sheet.now)) sheet.now.counts.e came_from.now result goal × ((real penalised : List Float)
        → map (road_at (contents sheet.now)) (back_way (road_at (contents sheet.now)) came_from.now result goal)
        ≡ trace (sheet.now.counts.n - 1) (labels_of (road_at (contents sheet.now)) sheet.now.counts.n real penalised came_from.now) goal []) }
{
    let mut i = 0;
    let mut k = came_from[goal];
    while k < sheet.counts.e {
        let v = sheet.source(k);
        k = came_from[v];
        i += 1;
    }
    i
}

// What a search that has ended found: the real cost kept at the goal, and how many roads lead there.
#[tactic(auto, unfolding(crate::specs::Answers::told, crate::specs::Answers::Traced))]
pub fn end_of_search(
    search: &Search<'_>,
    arrived: Result<bool, HeapFull>,
    areas: &SearchAreas<'_>,
) -> SearchEnd
    requires goal { (search.now.query.goal < areas.now.sheet.counts.n) × (areas.now.sheet ≡ search.now.sheet) }
    requires reached { arrived ≡ Ok true → Back search.now.sheet.counts.n search.now.sheet.counts.e (road_at (contents search.now.sheet)) areas.now.came_from.now search.now.query.goal }
    ensures found { result ≡ told (end_of_search (search.now.sheet.counts.n - 1) (query_at search.now) arrived (labels_at search.now.sheet areas.now)) }
    ensures traced { Traced (contents search.now.sheet) search.now.sheet.counts search.now.query.goal areas.now.came_from.now result
        (roads_in (end_of_search (search.now.sheet.counts.n - 1) (query_at search.now) arrived (labels_at search.now.sheet areas.now))) }
{
    match arrived {
        Err(HeapFull) => SearchEnd::Full,
        Ok(false) => SearchEnd::Nothing,
        Ok(true) => {
            let goal = search.query.goal;
            let n = count_back(&search.sheet, areas.came_from, goal);
            SearchEnd::Found(areas.real[goal], n)
        }
    }
}

// The roads that lead back from a goal by the marks, `count` of them. The marks lie as the search left them: a list of the roads would want memory.
#[derive(Clone, Copy)]
pub struct Trace<'a> {
    pub sheet: Sheet<'a>,
    pub came_from: &'a [usize],
    pub goal: usize,
    pub count: usize,
    ghost inside: { (goal < sheet.counts.n) × (sheet.counts.n ≤ length came_from.now) },
    ghost leads: { LeadsBack (road_at (contents sheet)) sheet.counts.e came_from.now count goal } by { LeadsBack-prop _ _ _ _ _ },
}

impl Trace<'_> {
    ghost use Rattle.std.specs.Prelude.{slice_get};
    ghost use Rattle.search.specs.Traces.{trace_numbers};

    // The first road in travel order, if there is one.
    pub fn first(&self) -> Option<usize>
        ensures { result ≡ slice_get (trace_numbers self.now) 0 }
    {
        let mut v = self.goal;
        let mut first = None;
        for _ in 0..self.count {
            let k = self.came_from[v];
            first = Some(k);
            v = self.sheet.source(k);
        }
        first
    }

    // The roads in travel order, to the front of `out`.
    pub fn write(&self, out: &mut [u64])
        requires { self.now.count ≤ length out.old }
        ensures { out.new ≡ trace_numbers self.now ++ drop self.now.count out.old }
    {
        let mut v = self.goal;
        for i in (0..self.count).rev() {
            let k = self.came_from[v];
            // By index: of what an adapter of `iter_mut` leaves nothing is known. As u64, which the lent list has.
            out[i] = k as u64;
            v = self.sheet.source(k);
        }
    }
}
