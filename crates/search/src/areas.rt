// The areas lent for the searches over a sheet: of each node a label, of each entry made its scores and its node, and the heap of the entries' numbers.
ghost use Rattle.std.specs.Prelude.{◌≡◌, ◌≤◌, ◌<◌, ◌*◌, length};

use crate::route::Trace;
use heap::Heap;
use sheet::Sheet;

// Marks in `came_from`, and no Option: the lent area is one of usize.
// The node is not reached.
const UNREACHED: usize = 4294967295;

// The node is the start.
const START_MARK: usize = 4294967294;

// A node's label: real and penalised cost from the start, and the number of the road it came by, none at the start.
#[derive(Clone, Copy)]
pub struct Label {
    pub real: f64,
    pub penalised: f64,
    pub came_from: Option<usize>,
}

// An entry of the heap: its g-score is the penalised cost, its f-score that and the distance to the goal.
#[derive(Clone, Copy)]
pub struct Entry {
    pub f_score: f64,
    pub g_score: f64,
    pub node: usize,
}

// The sheet that is searched; real and penalised costs and marks, of each of its nodes; f-scores, g-scores and nodes, of each of `slots` entries, of which `made` are made.
// Columns, and no slices of labels and entries: the lent arrays are of f64 and of usize, and of a fixed size.
// `slots` is the length of `f_score`, a number of its own since clauses compare with it.
#[derive(Drop)]
pub struct SearchAreas<'a> {
    pub sheet: Sheet<'a>,
    pub slots: usize,
    pub real: &'a mut [f64],
    pub penalised: &'a mut [f64],
    pub came_from: &'a mut [usize],
    pub f_score: &'a mut [f64],
    pub g_score: &'a mut [f64],
    pub node: &'a mut [usize],
    pub heap: Heap<'a>,
    pub made: usize,
    pub ghost labels: { (length real.now ≡ sheet.counts.n) × (length penalised.now ≡ sheet.counts.n) × (length came_from.now ≡ sheet.counts.n) },
    pub ghost entries: { (length f_score.now ≡ slots) × (length g_score.now ≡ slots) × (length node.now ≡ slots) × (heap.room ≡ slots) },
    pub ghost room: { (0 < slots) × (made ≤ slots) },
}

impl<'a> SearchAreas<'a> {
    ghost use Rattle.std.specs.Prelude.{ℕ, Option, Some, None, option_map, slice_get};
    ghost use Rattle.model.specs.declared.Road.{Road};
    ghost use Rattle.model.specs.Heap.{pop};
    ghost use Rattle.model.specs.Search.{Query, begun};
    ghost use Rattle.heap.specs.Keys.{key_in, Below};
    ghost use Rattle.model.specs.Sheet.{road_at};
    ghost use Rattle.sheet.specs.Contents.{contents};
    ghost use Rattle.search.specs.Areas.{columns, grown, state_of, entry_in, cost_there, SameRoom, Proper, LeadsBack};

    // The areas as they are lent, four slices since the C interface needs them: real costs and behind them penalised ones, f-scores and behind them g-scores, the heap's order and behind it the entries' nodes.
    pub fn new(
        sheet: Sheet<'a>,
        slots: usize,
        labels: &'a mut [f64],
        came_from: &'a mut [usize],
        entries: &'a mut [f64],
        links: &'a mut [usize],
    ) -> SearchAreas<'a>
        requires { (0 < slots) × (2 * sheet.counts.n ≤ length labels.old) × (sheet.counts.n ≤ length came_from.old) × (2 * slots ≤ length entries.old) × (2 * slots ≤ length links.old) }
        ensures { (result.sheet ≡ sheet.entry) × (result.slots ≡ slots) }
    {
        let nodes = sheet.counts.n;
        let (real, penalised) = labels.split_at_mut(nodes);
        let (f_score, g_score) = entries.split_at_mut(slots);
        let (order, node) = links.split_at_mut(slots);
        SearchAreas {
            sheet,
            slots,
            real,
            penalised: &mut penalised[..nodes],
            came_from: &mut came_from[..nodes],
            f_score,
            g_score: &mut g_score[..slots],
            node: &mut node[..slots],
            heap: Heap::new(order),
            made: 0,
        }
    }

    // The penalised cost of node v's label, where it has one.
    pub(crate) fn cost_there(&self, v: usize) -> Option<f64>
        requires { v < self.now.sheet.counts.n }
        ensures { result ≡ cost_there (columns self.now) v }
    {
        // Read before the mark is tested: a search is slower where this waits.
        let cost = self.penalised[v];
        if self.came_from[v] == UNREACHED {
            return None;
        }
        Some(cost)
    }

    // Node v gets a label, and an entry of this f-score.
    // What is asked of the heap here and in `pop` is no plainer as a fact of the areas: within a put the heap has the entry before it is counted.
    pub(crate) fn put(&mut self, v: usize, label: Label, f_score: f64)
        requires spare { (v < self.old.sheet.counts.n) × (self.old.made < self.old.slots) }
        requires heap { (length self.old.heap.items ≤ self.old.made) × Below self.old.heap.items self.old.made }
        ensures same_room { SameRoom self.old self.new }
        ensures put { columns self.new ≡ grown (columns self.old) v label f_score }
    {
        let e = self.made;
        self.real[v] = label.real;
        self.penalised[v] = label.penalised;
        self.came_from[v] = label.came_from.unwrap_or(START_MARK);
        self.f_score[e] = f_score;
        self.g_score[e] = label.penalised;
        self.node[e] = v;
        // By a name of its own, so that a proof knows the scores afterwards; the heap only reads them.
        let keys = &mut *self.f_score;
        self.heap.push(keys, e);
        self.made = e + 1;
    }

    // Takes the greatest entry out of the heap.
    pub(crate) fn pop(&mut self) -> Option<Entry>
        requires { Below self.old.heap.items self.old.made }
        ensures same_room { SameRoom self.old self.new }
        ensures top { result ≡ option_map (entry_in (columns self.old)) (slice_get self.old.heap.items 0) }
        ensures left { columns self.new ≡ record (columns self.old) { heap = pop (key_in self.old.f_score.now) self.old.heap.items } }
    {
        // As in `put`.
        let keys = &mut *self.f_score;
        let e = self.heap.pop(keys)?;
        Some(Entry {
            f_score: self.f_score[e],
            g_score: self.g_score[e],
            node: self.node[e],
        })
    }

    // A search begins: no node is reached but the start, and the only entry is the start's; `heuristic` is its distance to the goal.
    // Only the marks need clearing: a node has no label while its mark says so.
    pub(crate) fn begin(&mut self, start: usize, heuristic: f64)
        requires { start < self.old.sheet.counts.n }
        ensures same_room { SameRoom self.old self.new }
        ensures state { (roads : ℕ → Road) (q : Query) → q.nodes ≡ self.old.sheet.counts.n → q.heuristic start ≡ heuristic
            → state_of roads self.old.sheet.counts.n (columns self.new) ≡ begun q start }
        ensures proper { (e : ℕ) → Proper self.old.sheet.counts.n e self.old.slots (columns self.new) }
    {
        self.came_from.fill(UNREACHED);
        self.heap.clear();
        self.made = 0;
        let label = Label {
            real: 0.0,
            penalised: 0.0,
            came_from: None,
        };
        self.put(start, label, heuristic);
    }

    // The roads that lead back from the goal by the marks, `count` of them.
    pub fn trace(&self, goal: usize, count: usize) -> Trace<'_>
        requires { (goal < self.now.sheet.counts.n) × LeadsBack (road_at (contents self.now.sheet)) self.now.sheet.counts.e self.now.came_from.now count goal }
        ensures { (result.sheet ≡ self.now.sheet) × (result.came_from.now ≡ self.now.came_from.now) × (result.goal ≡ goal) × (result.count ≡ count) }
    {
        Trace {
            sheet: self.sheet,
            came_from: self.came_from,
            goal,
            count,
        }
    }
}
