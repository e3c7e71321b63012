// The two ends of a path, as the walks there see them.
ghost use Rattle.std.specs.Prelude.{◌≡◌, ◌≤◌, ◌<◌, length, get_or};
ghost use Rattle.model.specs.Numbers.{f0};
ghost use Rattle.sheet.specs.Contents.{contents};
ghost use Rattle.ends.specs.Sides.{terminal, distances, placed};

use road_network::graph::{Backward, Direction, Forward};
use sheet::Sheet;

// An end of a path, and the direction in which a walk leaves it.
pub trait End: Direction {
    // The road there.
    fn terminal(path: &[usize]) -> usize
        requires { 0 < length path.now }
        ensures { result ≡ terminal Self.forward path.now };

    // The distance of node v from the point there.
    fn distance(sheet: &Sheet<'_>, v: usize) -> f64
        requires { v < sheet.now.counts.n }
        ensures { result ≡ get_or (distances (contents sheet.now) Self.forward) v f0 };

    // Puts the roads that a walk added, which stand behind the path's n with the nearest first, in their places.
    fn place(ids: &mut [usize], n: usize)
        requires { n ≤ length ids.old }
        ensures { ids.new ≡ placed Self.forward n ids.old };
}

// The end, where the last road is.
impl End for Forward {
    fn terminal(path: &[usize]) -> usize {
        path[path.len() - 1]
    }

    fn distance(sheet: &Sheet<'_>, v: usize) -> f64 {
        sheet.from_last(v)
    }

    fn place(_ids: &mut [usize], _n: usize) {}
}

// The start, where the first road is.
impl End for Backward {
    fn terminal(path: &[usize]) -> usize {
        path[0]
    }

    fn distance(sheet: &Sheet<'_>, v: usize) -> f64 {
        sheet.from_first(v)
    }

    #[tactic(auto, using(crate::proofs::Placed::turned))]
    fn place(ids: &mut [usize], n: usize) {
        // Two reversals in place: std's `rotate_left` clears 4,096 bytes of its own on the stack at each call.
        ids.reverse();
        let added = ids.len() - n;
        ids[added..].reverse();
    }
}
