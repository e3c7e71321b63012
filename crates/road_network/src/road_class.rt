// Road classes and forms of way: what counts as an access road, how forms stand in for each other, how far classes lie apart and which roads a leg may use.
ghost use Rattle.std.specs.Prelude.{◌≡◌, ◌≤◌};
ghost use Rattle.model.specs.Candidates.{is_access_road, substitution_score, class_difference};
ghost use Rattle.model.specs.View.{raised, permits, penalty};

use model::{AStarConstraints, NO_LIMIT, Road};

// The form of way of a slip road.
pub const SLIP_ROAD: u8 = 6;

// The highway tags of access roads.
static ACCESS_ROADS: [&[u8]; 4] = [b"residential", b"living_street", b"service", b"track"];

// Whether a highway tag is that of an access road: exactly one of four byte strings.
// For hosts that make sheets: they set each road's access flag by it (docs/MEASURE.md).
#[tactic(auto, using(crate::proofs::Comparing::compared), unfolding(model::specs::Candidates::is_access_road, model::specs::Lists::any))]
pub fn is_access_road(tag: &[u8]) -> bool
    ensures { result ≡ is_access_road tag.now }
{
    ACCESS_ROADS.contains(&tag)
}

// Rows: the point's form of way. Columns: the road's.
static FOW_SCORE_MATRIX: [[f64; 8]; 8] = [
    [0.5, 0.5, 0.5, 0.5, 0.5, 0.5, 0.5, 0.5],
    [0.5, 1.0, 0.75, 0.0, 0.0, 0.0, 0.0, 0.0],
    [0.5, 0.75, 1.0, 0.75, 0.5, 0.0, 0.0, 0.0],
    [0.5, 0.0, 0.75, 1.0, 0.5, 0.5, 0.0, 0.0],
    [0.5, 0.0, 0.5, 0.5, 1.0, 0.5, 0.0, 0.0],
    [0.5, 0.0, 0.0, 0.5, 0.5, 1.0, 0.0, 0.0],
    [0.5, 0.0, 0.0, 0.0, 0.0, 0.0, 1.0, 0.0],
    [0.5, 0.0, 0.0, 0.0, 0.0, 0.0, 0.0, 1.0],
];

// How well a road of the actual form of way stands in for the wanted one; 0 for a number that is no form of way.
#[tactic(auto, unfolding(model::specs::Candidates::substitution_score))]
pub fn substitution_score(wanted: u8, actual: u8) -> f64
    ensures { result ≡ substitution_score wanted actual }
{
    if wanted > 7 || actual > 7 {
        return 0.0;
    }
    FOW_SCORE_MATRIX[usize::from(wanted)][usize::from(actual)]
}

// The signed difference of two class numbers in an i8, its sign removed: the scope names this form. Classes are 0 to 7, where the i8 is exact from -7 to 7.
pub fn class_difference(a: u8, b: u8) -> u8
    requires { (a ≤ 7) × (b ≤ 7) }
    ensures { (result ≡ class_difference a b) × (result ≤ 7) }
{
    let d = (a as i8) - (b as i8);
    d.unsigned_abs()
}

// The class limit raised by the tolerance and capped at 7; without a limit every class. S6: limit 6 and tolerance 2 give 7.
#[tactic(auto, unfolding(model::specs::View::raised))]
pub fn raised(tolerance: u8, limit: u8) -> u8
    ensures { result ≡ raised tolerance limit }
{
    if limit == NO_LIMIT {
        return NO_LIMIT;
    }
    limit.saturating_add(tolerance).min(7)
}

// Whether a leg may use road r: its class is within the limit, or it is a slip road.
#[tactic(auto, unfolding(model::specs::View::permits))]
pub fn permits(k: AStarConstraints, r: Road) -> bool
    ensures { result ≡ permits k r }
{
    r.frc <= k.max_frc || r.fow == SLIP_ROAD
}

// What a road costs beside its length: slip wins over access.
// A number of two truths indexes four values, without a branch: a `match` misses the bar of speed (4 % on full-size sheets).
#[tactic(auto, using(crate::proofs::Marks::mark_most, crate::proofs::Marks::by_marks), unfolding(model::specs::View::penalty))]
pub fn penalty(k: AStarConstraints, r: Road) -> f64
    ensures { result ≡ penalty k r }
{
    let slip = k.slip_road_cost_penalty;
    let by_marks = [0.0, k.access_road_cost_penalty, slip, slip];
    let at = 2 * usize::from(r.fow == SLIP_ROAD) + usize::from(r.access);
    by_marks[at]
}
