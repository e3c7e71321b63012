// What a leg accepts. The DNP stands beside the settings, no plainer in one struct: they are the sheet's, it is a point's.
#![tactic(auto, unfolding(model::specs::View::max_valid_distance, model::specs::View::min_distance, model::specs::View::max_search_distance, model::specs::View::limits_of))]

ghost use Rattle.std.specs.Prelude.{◌≡◌};
ghost use Rattle.model.specs.View.{max_valid_distance, min_distance, max_search_distance, limits_of};

use crate::floats;
use model::{AStarConstraints, Limits, Point, Settings};
use road_network::road_class;

// The greatest length for a DNP: the looser of the relative and the absolute tolerance.
pub fn max_valid_distance(settings: Settings, dnp: f64) -> f64
    ensures { result ≡ max_valid_distance settings dnp }
{
    floats::max(
        dnp * (1.0 + settings.length_tolerance),
        dnp + settings.absolute_length_tolerance,
    )
}

// The least length, the looser one too.
pub fn min_distance(settings: Settings, dnp: f64) -> f64
    ensures { result ≡ min_distance settings dnp }
{
    let abs_min = floats::max(dnp - settings.absolute_length_tolerance, 0.0);
    floats::min(dnp * (1.0 - settings.length_tolerance), abs_min)
}

// How far a leg's searches go: a multiple of the DNP, and at least 500 metres.
pub fn max_search_distance(settings: Settings, dnp: f64) -> f64
    ensures { result ≡ max_search_distance settings dnp }
{
    floats::max(dnp * settings.max_search_distance_factor, 500.0)
}

// What the leg that starts at this point accepts.
pub fn limits_of(settings: Settings, point: Point) -> Limits
    ensures { result ≡ limits_of settings point }
{
    let min_distance = min_distance(settings, point.dnp);
    let max_valid_distance = max_valid_distance(settings, point.dnp);
    let max_search_distance = max_search_distance(settings, point.dnp);
    let max_frc = road_class::raised(settings.frc_tolerance, point.limit);
    Limits {
        dnp: point.dnp,
        min_distance,
        max_valid_distance,
        max_search_distance,
        constraints: AStarConstraints {
            max_frc,
            slip_road_cost_penalty: settings.slip_road_cost_penalty,
            access_road_cost_penalty: settings.access_road_cost_penalty,
        },
    }
}
