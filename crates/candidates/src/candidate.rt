// What a measured row gives: its candidate, if it passes.
ghost use Rattle.std.specs.Prelude.{◌≡◌, ◌≤◌};
ghost use Rattle.model.specs.Candidates.{candidate_of};
ghost use Rattle.candidates.specs.Found.{by_number, if_passes};

use crate::score;
use model::{Point, Road, Row, Settings};
use road_network::{road_class, spatial};

// A road that a point may lie on, by its number.
#[derive(Clone, Copy)]
pub struct Candidate {
    pub edge_idx: usize,
    pub distance_m: f64,
    pub bearing_diff: f64,
    pub frc_diff: u8,
    pub fow_score: f64,
    pub score: f64,
    pub projection_fraction: f64,
}

// The candidate of a row w of the point p, on the road r that it names.
#[tactic(auto, unfolding(model::specs::Candidates::candidate_of))]
pub fn candidate_of(c: &Settings, p: Point, w: Row, r: Road) -> Candidate
    requires { (p.frc ≤ 7) × (r.frc ≤ 7) }
    ensures { result ≡ by_number (candidate_of c.now p (record { row = w; road = r })) }
{
    let frc_diff = road_class::class_difference(r.frc, p.frc);
    let bearing_diff = spatial::bearing_difference(f64::from(p.bearing), w.bearing);
    let fow_score = road_class::substitution_score(p.fow, r.fow);
    let score = score::compute_score(c, w.distance_m, bearing_diff, frc_diff, fow_score);
    Candidate {
        edge_idx: r.number,
        distance_m: w.distance_m,
        bearing_diff,
        frc_diff,
        fow_score,
        score,
        projection_fraction: spatial::fraction(w.along_m, w.length_m),
    }
}

// The candidate, if it is kept: a class difference above the tolerance drops it unless it is a slip road; distance and bearing only above their maxima.
#[tactic(auto, using(std::proofs::lemmas::Bool::Decides::nat_tests), unfolding(model::specs::Candidates::candidate_of, model::specs::Candidates::passes))]
pub fn kept(c: &Settings, p: Point, w: Row, r: Road) -> Option<Candidate>
    requires { (p.frc ≤ 7) × (r.frc ≤ 7) }
    ensures { result ≡ if_passes c.now (candidate_of c.now p (record { row = w; road = r })) }
{
    let frc_diff = road_class::class_difference(r.frc, p.frc);
    if frc_diff > c.frc_tolerance && r.fow != road_class::SLIP_ROAD {
        return None;
    }
    if w.distance_m > c.search_radius_m {
        return None;
    }
    let bearing_diff = spatial::bearing_difference(f64::from(p.bearing), w.bearing);
    if bearing_diff > c.max_bearing_diff {
        return None;
    }
    Some(candidate_of(c, p, w, r))
}
