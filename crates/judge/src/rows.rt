// Refusal 5: the rows and the goals.
ghost use Rattle.std.specs.Prelude.{◌≡◌, ℕ, ◌+◌, ◌-◌, ◌^◌, ◌<◌, ◌≤◌, length, nat_lt};
ghost use Rattle.model.specs.Layout.{most_nodes};
ghost use Rattle.model.specs.Table.{every};
ghost use Rattle.model.specs.Judge.{rows_before, row_rises, point_rises, goal_rises, goal_node, rows_good};
ghost use Rattle.judge.specs.Marks.{Marks, Clear};
ghost use Rattle.judge.specs.Rows.{Gives, goals_cover};

use model::MOST_NODES;
use sheet::SoundSheet;

// The numbers at k places from `from` on rise.
fn rise<F: Fn(usize) -> usize>(from: usize, k: usize, number: F) -> bool
    requires fits { from + k < 2 ^ 64 }
    requires callable { (i : ℕ) → from ≤ i → i < from + k → F.pre number i }
    ensures { (f : ℕ → ℕ) → Gives f from k (F.post number) → result ≡ every (λ i. nat_lt (f i) (f (i + 1))) (k - 1) from }
{
    for i in from..(from + k).saturating_sub(1) {
        if number(i + 1) <= number(i) {
            return false;
        }
    }
    true
}

// The nodes of the goal rows rise.
fn goals_rise(sheet: &SoundSheet<'_>) -> bool
    ensures { result ≡ every (goal_rises sheet.now.bytes.now sheet.now.counts) (sheet.now.counts.g - 1) 0 }
{
    rise(0, sheet.counts.g, |k| sheet.goal_node(k))
}

// A mark for each node that has a goal row.
#[tactic(auto, using(crate::proofs::Marking::marks_none))]
fn mark_goals(sheet: &SoundSheet<'_>, marks: &mut [bool])
    requires { (sheet.now.counts.n ≤ length marks.old) × Clear sheet.now.counts.n marks.old }
    ensures { Marks (goal_node sheet.now.bytes.now sheet.now.counts) sheet.now.counts.n marks.new sheet.now.counts.g }
{
    for k in 0..sheet.counts.g {
        marks[sheet.goal_node(k)] = true;
    }
}

// A sheet whose row counts add up to M.
#[derive(Clone, Copy)]
struct CountedSheet<'a> {
    sound: SoundSheet<'a>,
    ghost counted: { rows_before sound.bytes.now sound.counts.p ≡ sound.counts.m },
}

impl CountedSheet<'_> {
    // The roads of k rows rise.
    fn roads_rise(&self, from: usize, k: usize) -> bool
        requires { from + k ≤ self.now.sound.counts.m }
        ensures { result ≡ every (row_rises self.now.sound.bytes.now self.now.sound.counts) (k - 1) from }
    {
        rise(from, k, |row| self.sound.row_road(row))
    }

    // The roads of each point's rows rise.
    #[tactic(auto, using(model::proofs::RowSums::before_none, model::proofs::RowSums::before_next, model::proofs::RowSums::before_le))]
    fn points_rise(&self) -> bool
        ensures { result ≡ every (point_rises self.now.sound.bytes.now self.now.sound.counts) self.now.sound.counts.p 0 }
    {
        let mut from = 0;
        for i in 0..self.sound.counts.p {
            let k = self.sound.row_count(i);
            if !self.roads_rise(from, k) {
                return false;
            }
            from += k;
        }
        true
    }

    // The source of the road of each row after the first point's is marked.
    fn sources_marked(&self, marks: &[bool]) -> bool
        requires { (0 < self.now.sound.counts.p) × (self.now.sound.counts.n ≤ length marks.now) × Marks (goal_node self.now.sound.bytes.now self.now.sound.counts) self.now.sound.counts.n marks.now self.now.sound.counts.g }
        ensures { result ≡ goals_cover self.now.sound.bytes.now self.now.sound.counts }
    {
        for k in self.sound.row_count(0)..self.sound.counts.m {
            let road = self.sound.row_road(k);
            if !marks[self.sound.source(road)] {
                return false;
            }
        }
        true
    }

    // The source of the road of each row after the first point's has a goal row. N marks are enough, in an array, since there is no heap.
    fn goals_cover_with<const N: usize>(&self) -> bool
        requires { (0 < self.now.sound.counts.p) × (self.now.sound.counts.n ≤ N) × (N ≤ most_nodes) }
        ensures { result ≡ goals_cover self.now.sound.bytes.now self.now.sound.counts }
    {
        let mut marks = [false; N];
        mark_goals(&self.sound, &mut marks);
        self.sources_marked(&marks)
    }

    // The same, with marks for few nodes, or for all that a sheet can have. A sheet without points has no rows.
    #[tactic(auto, using(crate::proofs::Tests::no_rows))]
    fn goals_cover(&self) -> bool
        ensures { result ≡ goals_cover self.now.sound.bytes.now self.now.sound.counts }
    {
        if self.sound.counts.p == 0 {
            true
        } else if self.sound.counts.n <= 128 {
            self.goals_cover_with::<128>()
        } else {
            self.goals_cover_with::<MOST_NODES>()
        }
    }
}

// The row counts add up to M, roads and goals rise, and goal rows cover the rows.
#[tactic(auto, unfolding(model::specs::Judge::rows_good, model::specs::Table::all_of, model::specs::Table::all_after))]
#[inline(never)]
pub(crate) fn rows_good(sheet: &SoundSheet<'_>) -> bool
    ensures { result ≡ rows_good sheet.now.bytes.now sheet.now.counts }
{
    if sheet.rows_before(sheet.counts.p) != sheet.counts.m {
        return false;
    }
    let counted = CountedSheet { sound: *sheet };
    counted.points_rise() && goals_rise(sheet) && counted.goals_cover()
}
