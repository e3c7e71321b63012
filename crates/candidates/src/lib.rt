// The candidates of a point: scores, what a row gives, the best of them in order, and the closest-candidate rule over all points.
#![tactic(auto)]

pub mod best;
pub mod candidate;
pub mod closest;
pub mod find;
pub mod passing;
pub mod score;
