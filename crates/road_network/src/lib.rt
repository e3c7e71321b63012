// The leaves of candidate finding, of the search and of the ends: classes and forms of way, bearings and fractions, nodes without a choice and the ways that they force.
#![tactic(auto)]

pub mod graph;
pub mod road_class;
pub mod spatial;
