// finalize_path: the walks along forced ways at both ends of a path.
#![tactic(auto)]

pub mod caps;
pub mod sides;
pub mod walks;

ghost use Rattle.std.specs.Prelude.{◌+◌, ◌*◌, ◌≤◌, ◌<◌, length, take};
ghost use Rattle.sheet.specs.Contents.{contents};
ghost use Rattle.model.specs.Ends.{extend_ends};
ghost use Rattle.search.specs.Answers.{RoadNumbers};
ghost use Rattle.ends.specs.Sides.{walked};
ghost use Rattle.ends.specs.Whole.{EndHeld, FinalHeld};

use crate::sides::End;
use road_network::graph::{Backward, Forward};
use sheet::Sheet;

// A path after the walk at an end: how many roads it has, and the offset at that end.
#[derive(Clone, Copy)]
pub struct WalkedEnd {
    pub count: usize,
    pub offset: f64,
}

// A path after the walks at both ends: how many roads it has, and its offsets in metres and as parts of the first and the last road.
#[derive(Clone, Copy)]
pub struct Final {
    pub count: usize,
    pub start_offset: f64,
    pub start_fraction: f64,
    pub end_offset: f64,
    pub end_fraction: f64,
}

// The walk at an end of the path in the first n of `ids`, kept only if the point there is strictly nearer the new end.
// A count beside the slice, here and below, since memory is fixed: what is added goes into the room behind.
// `RoadNumbers` and the room, here and below: no plainer as facts of a type, they are about a sheet and numbers that only a struct made for one call could hold.
pub fn walk_at<E: End>(
    sheet: &Sheet<'_>,
    ids: &mut [usize],
    n: usize,
    cap: f64,
    offset: f64,
) -> WalkedEnd
    requires { (0 < n) × (n + 2 * sheet.now.counts.n ≤ length ids.old) × RoadNumbers sheet.now.counts.e n ids.old }
    ensures { EndHeld (walked E.forward (contents sheet.now) cap (record { path = take n ids.old; offset = offset })) sheet.now.counts.e (n + 2 * sheet.now.counts.n) ids.new result }
{
    let as_was = WalkedEnd { count: n, offset };
    let (path, room) = ids.split_at_mut(n);
    let r = E::terminal(path);
    let Some(added) = walks::extend::<E>(sheet, cap, path, r, room) else {
        return as_was;
    };
    let x = room[added.count - 1];
    let new = E::node(sheet, x);
    let old = E::node(sheet, r);
    let nearer = E::distance(sheet, new) < E::distance(sheet, old);
    if nearer {
        let count = n + added.count;
        E::place(&mut ids[..count], n);
        return WalkedEnd {
            count,
            offset: offset + added.metres,
        };
    }
    as_was
}

// finalize_path: the walk at the end of the path in the first n of `ids`, then the one at its start. `start` and `end` are the offsets of the projections.
// No plainer with a struct of a cap and an offset: it would be made for this one call.
pub fn finalize_path(
    sheet: &Sheet<'_>,
    ids: &mut [usize],
    n: usize,
    start_cap: f64,
    end_cap: f64,
    start: f64,
    end: f64,
) -> Final
    requires { (0 < n) × (n + 4 * sheet.now.counts.n ≤ length ids.old) × RoadNumbers sheet.now.counts.e n ids.old }
    ensures { FinalHeld (contents sheet.now) (extend_ends (contents sheet.now) start_cap end_cap (record { path = take n ids.old; start_offset = start; end_offset = end })) sheet.now.counts.e (n + 4 * sheet.now.counts.n) ids.new result }
{
    let e = walk_at::<Forward>(sheet, ids, n, end_cap, end);
    let b = walk_at::<Backward>(sheet, ids, e.count, start_cap, start);
    let first = ids[0];
    let start_fraction = caps::part_of(b.offset, sheet.length_m(first));
    let last = ids[b.count - 1];
    let end_fraction = caps::part_of(e.offset, sheet.length_m(last));
    Final {
        count: b.count,
        start_offset: b.offset,
        start_fraction,
        end_offset: e.offset,
        end_fraction,
    }
}
