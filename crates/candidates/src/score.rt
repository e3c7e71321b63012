// The score of a candidate: lower is better.
ghost use Rattle.std.specs.Prelude.{◌≡◌};
ghost use Rattle.model.specs.Candidates.{normalize, compute_score};

use model::Settings;

// value / max, and 0 where the maximum is 0.
// No plainer as one function with `part_of` of ends: each is a definition of its own, one line long.
#[tactic(auto, unfolding(model::specs::Candidates::normalize))]
fn normalize(value: f64, max: f64) -> f64
    ensures { result ≡ normalize value max }
{
    if max > 0.0 { value / max } else { 0.0 }
}

// Four weighted penalties. S9: 50 m away with the rest perfect scores 5 under the default settings.
#[tactic(auto, unfolding(model::specs::Candidates::compute_score))]
pub fn compute_score(c: &Settings, distance: f64, bearing: f64, class: u8, fow: f64) -> f64
    ensures { result ≡ compute_score c.now distance bearing class fow }
{
    let distance_penalty = normalize(distance, c.search_radius_m);
    let bearing_penalty = normalize(bearing, c.max_bearing_diff);
    let frc_penalty = normalize(f64::from(class), f64::from(c.frc_tolerance));
    let fow_penalty = 1.0 - fow;
    c.distance_weight * distance_penalty
        + c.bearing_weight * bearing_penalty
        + c.frc_weight * frc_penalty
        + c.fow_weight * fow_penalty
}
