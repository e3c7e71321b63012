// The walks along forced ways, from either end of a path.
ghost use Rattle.std.specs.Prelude.{◌≡◌, false, List, ℕ, ◌*◌, ◌≤◌, ◌<◌, length};
ghost use Rattle.std.proofs.Math.Option.{none};
ghost use Rattle.sheet.specs.Contents.{contents};
ghost use Rattle.model.specs.Ends.{extension};
ghost use Rattle.ends.specs.Post.{ExtensionHeld};

use road_network::graph;
use road_network::graph::Direction;
use sheet::Sheet;

// What a walk adds: so many roads, of so many metres.
// A count beside the slice that they are written to, since memory is fixed.
#[derive(Clone, Copy)]
pub struct Extension {
    pub count: usize,
    pub metres: f64,
}

// Whether a walk from road r may add a road. From a fork it adds none, nor without a first way within the cap: these spare the test of the node, which reads all roads.
#[tactic(auto, using(crate::proofs::Starts::valid_none, crate::proofs::Starts::no_way_none, road_network::proofs::Forks::fork_valid))]
fn may_start<D: Direction>(sheet: &Sheet<'_>, cap: f64, r: usize) -> bool
    requires { r < sheet.now.counts.e }
    ensures { result ≡ false → (path : List ℕ) → extension (contents sheet.now) D.forward cap path r ≡ none }
{
    let v = D::node(sheet, r);
    if graph::is_fork(sheet, v) {
        return false;
    }
    let Some(x) = D::way(sheet, r) else {
        return false;
    };
    // From 0, as the definition sums.
    let metres = 0.0 + sheet.length_m(x);
    !(cap < metres)
}

// The walk from road r, at an end of the path. The roads added are written to `room`, the nearest first.
pub fn extend<D: Direction>(
    sheet: &Sheet<'_>,
    cap: f64,
    path: &[usize],
    r: usize,
    room: &mut [usize],
) -> Option<Extension>
    requires { (r < sheet.now.counts.e) × (2 * sheet.now.counts.n ≤ length room.old) }
    ensures { ExtensionHeld (extension (contents sheet.now) D.forward cap path.now r) sheet.now.counts.n sheet.now.counts.e room.new result }
{
    if !may_start::<D>(sheet, cap, r) {
        return None;
    }
    let mut road = r;
    let mut count = 0;
    let mut metres = 0.0;
    // A `loop`, as the scope has it: the walk ends where no way is forced. `count` is what it adds, no bound of it.
    loop {
        let Some(x) = D::forced(sheet, road) else {
            break;
        };
        if path.contains(&x) || room[..count].contains(&x) {
            return None;
        }
        metres += sheet.length_m(x);
        if cap < metres {
            return None;
        }
        room[count] = x;
        road = x;
        count += 1;
    }
    if count == 0 {
        return None;
    }
    Some(Extension { count, metres })
}
