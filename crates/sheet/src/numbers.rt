// The numbers of a sheet that refusals 1 to 4 let pass: what refusal 5 compares, and what the graph is made of.
// A method for each: it is one load, and its clause names its own number of the definition, so a common reader by offset would be no plainer.
ghost use Rattle.std.specs.Prelude.{◌≡◌, ◌+◌, ◌*◌, ◌≤◌, ◌<◌, length};
ghost use Rattle.model.specs.Bytes.{u32_at};
ghost use Rattle.model.specs.Layout.{header_size, counts_of, roads_at, most_measured};
ghost use Rattle.model.specs.Judge.{source_of, start_of, entry_of, row_count, rows_before, row_road, goal_node};

use crate::SoundSheet;
use crate::layout::Layout;
use model::Counts;

// The counts of the header. Its length is asked for, since these bytes are no sheet yet.
pub fn counts(s: &[u8]) -> Counts
    requires { header_size ≤ length s.now }
    ensures { result ≡ counts_of s.now }
{
    let kind = fields::count_at(s, 0);
    let p = fields::count_at(s, 4);
    let n = fields::count_at(s, 8);
    let e = fields::count_at(s, 12);
    let m = fields::count_at(s, 16);
    let g = fields::count_at(s, 20);
    Counts {
        kind,
        p,
        n,
        e,
        m,
        g,
    }
}

impl SoundSheet<'_> {
    // The source of road r.
    pub fn source(&self, r: usize) -> usize
        requires { r < self.now.counts.e }
        ensures { (result ≡ source_of self.now.bytes.now self.now.counts r) × (result < self.now.counts.n) }
    {
        let counts = self.counts;
        let at = Layout { counts }.roads() + r * 32;
        fields::count_at(self.bytes, at + 16)
    }

    // The target of road r.
    pub fn target(&self, r: usize) -> usize
        requires { r < self.now.counts.e }
        ensures { (result ≡ u32_at self.now.bytes.now (roads_at self.now.counts + r * 32 + 20)) × (result < self.now.counts.n) }
    {
        let counts = self.counts;
        let at = Layout { counts }.roads() + r * 32;
        fields::count_at(self.bytes, at + 20)
    }

    // Where node i's part of the lists begins; for i = N, where the last one ends.
    pub fn start(&self, i: usize) -> usize
        requires { i ≤ self.now.counts.n }
        ensures { result ≡ start_of self.now.bytes.now self.now.counts i }
    {
        let counts = self.counts;
        let at = Layout { counts }.lists() + i * 4;
        fields::count_at(self.bytes, at)
    }

    // The road number at place j of the lists.
    pub fn entry(&self, j: usize) -> usize
        requires { j < self.now.counts.e }
        ensures { (result ≡ entry_of self.now.bytes.now self.now.counts j) × (result < self.now.counts.e) }
    {
        let counts = self.counts;
        let at = Layout { counts }.numbers() + j * 4;
        fields::count_at(self.bytes, at)
    }

    // The row count of point i.
    pub fn row_count(&self, i: usize) -> usize
        requires { i < self.now.counts.p }
        ensures { (result ≡ row_count self.now.bytes.now i) × (result ≤ most_measured) }
    {
        let at = 168 + i * 24 + 16;
        fields::count_at(self.bytes, at)
    }

    // The rows of the points before point i; for i = P, of all points.
    #[tactic(auto, using(model::proofs::RowSums::before_none, model::proofs::RowSums::before_next))]
    pub fn rows_before(&self, i: usize) -> usize
        requires { i ≤ self.now.counts.p }
        ensures { result ≡ rows_before self.now.bytes.now i }
    {
        let mut sum = 0;
        for k in 0..i {
            sum += self.row_count(k);
        }
        sum
    }

    // The road of row k.
    pub fn row_road(&self, k: usize) -> usize
        requires { k < self.now.counts.m }
        ensures { (result ≡ row_road self.now.bytes.now self.now.counts k) × (result < self.now.counts.e) }
    {
        let counts = self.counts;
        let at = Layout { counts }.rows() + k * 40;
        fields::count_at(self.bytes, at)
    }

    // The node of goal row k.
    pub fn goal_node(&self, k: usize) -> usize
        requires { k < self.now.counts.g }
        ensures { (result ≡ goal_node self.now.bytes.now self.now.counts k) × (result < self.now.counts.n) }
    {
        let counts = self.counts;
        let layout = Layout { counts };
        let width = layout.goal_width();
        let before = k * width;
        let at = layout.goals() + before;
        fields::count_at(self.bytes, at)
    }
}
