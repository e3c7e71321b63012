// How far a walk may go, and an offset as a part of its road.
ghost use Rattle.std.specs.Prelude.{◌≡◌, Float};
ghost use Rattle.model.specs.Ends.{snap_cap_m, part_of};

use model::Settings;
use rules::{floats, limits};

// How many metres a walk may add at an end of a segment: 0 with snapping off.
#[tactic(auto, unfolding(model::specs::Ends::snap_cap_m))]
pub fn snap_cap_m(c: Settings, expected_m: f64, length_m: f64) -> f64
    ensures { (start_offset end_offset : Float) → result ≡ snap_cap_m c (record { length_m = length_m; expected_m = expected_m; start_offset_m = start_offset; end_offset_m = end_offset }) }
{
    if c.snap_to_valid_nodes {
        let most = limits::max_valid_distance(c, expected_m);
        let left = floats::min(c.max_snap_extension_m, most - length_m);
        floats::max(left, 0.0)
    } else {
        0.0
    }
}

// An offset as a part of its road's length, 0 on a road of length 0.
// No plainer as one function with `normalize` of candidates: each is a definition of its own, one line long.
#[tactic(auto, unfolding(model::specs::Ends::part_of))]
pub fn part_of(offset: f64, metres: f64) -> f64
    ensures { result ≡ part_of offset metres }
{
    if 0.0 < metres { offset / metres } else { 0.0 }
}
