// The distances of a well-formed sheet: from the first and the last point, and to the goals.
ghost use Rattle.std.specs.Prelude.{◌≡◌, ◌+◌, ◌*◌, ◌<◌, get_or};
ghost use Rattle.model.specs.Numbers.{f0};
ghost use Rattle.model.specs.Bytes.{f64_at};
ghost use Rattle.model.specs.Layout.{distances_at};
ghost use Rattle.sheet.specs.Contents.{contents};
ghost use Rattle.sheet.specs.Goals.{goal_at, GoalOf};

use crate::Sheet;
use crate::layout::Layout;

impl Sheet<'_> {
    // The k-th of the distances from the first and from the last point.
    fn distance(&self, k: usize) -> f64
        requires { k < self.now.counts.n + self.now.counts.n }
        ensures { result ≡ f64_at self.now.bytes.now (distances_at self.now.counts + k * 8) }
    {
        let counts = self.counts;
        let at = Layout { counts }.distances() + k * 8;
        fields::f64_at(self.bytes, at)
    }

    // The distance of node v from the first point.
    pub fn from_first(&self, v: usize) -> f64
        requires { v < self.now.counts.n }
        ensures { result ≡ get_or (contents self.now).from_first v f0 }
    {
        self.distance(v)
    }

    // The distance of node v from the last point.
    pub fn from_last(&self, v: usize) -> f64
        requires { v < self.now.counts.n }
        ensures { result ≡ get_or (contents self.now).from_last v f0 }
    {
        let k = self.counts.n + v;
        self.distance(k)
    }

    // The goal row of node v, found by halving: `left` rows from `low` on are left.
    // By hand, since the rows are bytes with a width of their own, and no slice that a library's search takes.
    pub fn goal_row(&self, v: usize) -> Option<usize>
        ensures { GoalOf (contents self.now) self.now.counts v result }
    {
        let mut low = 0;
        let mut left = self.counts.g;
        // `while`, since no index is counted: what is left is halved.
        while 0 < left {
            let half = left / 2;
            let middle = low + half;
            let node = self.sound().goal_node(middle);
            if node == v {
                return Some(middle);
            }
            if node < v {
                low = middle + 1;
                left = left - half - 1;
            } else {
                left = half;
            }
        }
        None
    }

    // The distance from node v to the node of goal row k.
    pub fn goal_distance(&self, k: usize, v: usize) -> f64
        requires { (k < self.now.counts.g) × (v < self.now.counts.n) }
        ensures { result ≡ get_or (goal_at (contents self.now) k).distances v f0 }
    {
        let counts = self.counts;
        let layout = Layout { counts };
        let width = layout.goal_width();
        let before = k * width;
        let at = layout.goals() + before;
        fields::f64_at(self.bytes, at + 8 + v * 8)
    }
}
