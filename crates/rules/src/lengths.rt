// Lengths, offsets and scores of the paths between a start and an end candidate.
#![tactic(auto, unfolding(model::specs::Legs::score_of, model::specs::Legs::excellent, model::specs::Legs::effective_min, model::specs::Legs::effective_max, model::specs::Legs::same_edge_length, model::specs::Legs::fits_same_edge, model::specs::Legs::path_cost, model::specs::Legs::fits_path, model::specs::Legs::stays, model::specs::Legs::middle_max))]

ghost use Rattle.std.specs.Prelude.{◌≡◌};
ghost use Rattle.model.specs.Legs.{score_of, excellent, effective_min, effective_max, same_edge_length, fits_same_edge, start_offset, end_offset, path_cost, fits_path, stays, middle_max};
ghost use Rattle.rules.specs.Code.{placed, pair_of};

use crate::{Pair, Placed, floats};
use model::Limits;

impl Placed {
    // The metres from the start of the candidate's road to its point.
    pub fn start_offset(&self) -> f64
        ensures { result ≡ start_offset (placed self.now) }
    {
        self.road.length_m * self.candidate.projection_fraction
    }

    // The metres from its point to the end of its road.
    pub fn end_offset(&self) -> f64
        ensures { result ≡ end_offset (placed self.now) }
    {
        self.road.length_m * (1.0 - self.candidate.projection_fraction)
    }
}

impl Pair {
    // The candidates' scores and the length penalty of a path with this total length.
    #[tactic(auto, using(road_network::proofs::Signs::abs_is), unfolding(model::specs::Legs::score_of))]
    pub fn score_of(&self, limits: Limits, total: f64) -> f64
        ensures { result ≡ score_of limits (pair_of self.now) total }
    {
        let difference = (total - limits.dnp).abs();
        let divisor = floats::max(limits.dnp, 1.0);
        self.start.candidate.score + self.end.candidate.score + difference / divisor
    }
}

// ---- both points on one road
impl Pair {
    // An excellent match: both points strictly nearer than 5 metres.
    pub fn excellent(&self) -> bool
        ensures { result ≡ excellent (pair_of self.now) }
    {
        self.start.candidate.distance_m < 5.0 && self.end.candidate.distance_m < 5.0
    }

    // The least length, 0 for an excellent match.
    pub fn effective_min(&self, limits: Limits) -> f64
        ensures { result ≡ effective_min limits (pair_of self.now) }
    {
        if self.excellent() {
            0.0
        } else {
            limits.min_distance
        }
    }

    // The greatest length; an excellent match has three times as much.
    pub fn effective_max(&self, limits: Limits) -> f64
        ensures { result ≡ effective_max limits (pair_of self.now) }
    {
        if self.excellent() {
            limits.max_valid_distance * 3.0
        } else {
            limits.max_valid_distance
        }
    }

    // The metres between the two points on the start's road.
    pub fn same_edge_length(&self) -> f64
        ensures { result ≡ same_edge_length (pair_of self.now) }
    {
        self.start.road.length_m
            * (self.end.candidate.projection_fraction - self.start.candidate.projection_fraction)
    }

    // Whether the way from the start to the end on their road is a path.
    // No `contains` of a range: it refuses a NaN, and the definition's comparisons do not.
    pub fn fits_same_edge(&self, limits: Limits) -> bool
        ensures { result ≡ fits_same_edge limits (pair_of self.now) }
    {
        if self.end.candidate.projection_fraction - self.start.candidate.projection_fraction
            <= 0.0
        {
            return false;
        }
        let length = self.same_edge_length();
        !(length < self.effective_min(limits)) && !(self.effective_max(limits) < length)
    }
}

// ---- a path over several roads
impl Pair {
    // The whole length, with this cost between the two roads.
    pub fn path_cost(&self, cost: f64) -> f64
        ensures { result ≡ path_cost (pair_of self.now) cost }
    {
        self.start.end_offset() + cost + self.end.start_offset()
    }

    // How far a search between the two roads may go.
    pub fn middle_max(&self, limits: Limits) -> f64
        ensures { result ≡ middle_max limits (pair_of self.now) }
    {
        limits.max_search_distance - self.start.end_offset() - self.end.start_offset()
    }
}

// Whether a leg accepts this length of a path over several roads. No `contains`, as in `fits_same_edge`.
pub fn fits_path(limits: Limits, total: f64) -> bool
    ensures { result ≡ fits_path limits total }
{
    !(total <= 0.0) && !(total < limits.min_distance) && !(limits.max_valid_distance < total)
}

// Whether a terminal road stays: its part is at least 0.03 of the length.
pub fn stays(part: f64, total: f64) -> bool
    ensures { result ≡ stays part total }
{
    part / total >= 0.03
}
