// Bearings, and positions along a line.
ghost use Rattle.std.specs.Prelude.{◌≡◌};
ghost use Rattle.model.specs.Candidates.{bearing_difference, fraction};

// The angle between two bearings, in degrees. S5: 350 and 10 differ by 20, 0 and 180 by 180.
#[tactic(auto, using(crate::proofs::Signs::abs_is), unfolding(model::specs::Candidates::bearing_difference))]
pub fn bearing_difference(a: f64, b: f64) -> f64
    ensures { result ≡ bearing_difference a b }
{
    let diff = (a - b).abs();
    if diff > 180.0 { 360.0 - diff } else { diff }
}

// along / length held to 0 to 1, and 0 for length 0. S7: along 120 of 100 gives 1, of 0 gives 0.
// One function for this, `normalize` and `part_of` would be no plainer: each is a definition of its own, one line long, and this one is held to 0 to 1.
#[tactic(auto, unfolding(model::specs::Candidates::fraction))]
pub fn fraction(along: f64, length: f64) -> f64
    ensures { result ≡ fraction along length }
{
    if length > 0.0 {
        (along / length).clamp(0.0, 1.0)
    } else {
        0.0
    }
}
