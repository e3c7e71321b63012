// The records that the definition in specs/ and the code above it share. The definition itself is specs/, read in the order of specs/Lib.antt.
#![tactic(auto)]

pub mod error;
pub mod kind;

// The header's counts: kind of the reference, points P, nodes N, roads E, measured rows M, goal rows G.
// The kind is a number here, since it is read before it is judged.
#[derive(Clone, Copy)]
pub struct Counts {
    pub kind: usize,
    pub p: usize,
    pub n: usize,
    pub e: usize,
    pub m: usize,
    pub g: usize,
}

// CandidateConfig and DecoderConfig of the Rust, in the order of the sheet.
#[derive(Clone, Copy)]
pub struct Settings {
    pub search_radius_m: f64,
    pub max_bearing_diff: f64,
    pub max_candidate_distance_m: f64,
    pub distance_weight: f64,
    pub bearing_weight: f64,
    pub frc_weight: f64,
    pub fow_weight: f64,
    pub length_tolerance: f64,
    pub absolute_length_tolerance: f64,
    pub max_search_distance_factor: f64,
    pub slip_road_cost_penalty: f64,
    pub access_road_cost_penalty: f64,
    pub max_snap_extension_m: f64,
    pub frc_tolerance: u8,
    pub snap_to_valid_nodes: bool,
    pub max_candidates: u16,
}

// A location reference point. `limit` is the LFRCNP, or `NO_LIMIT` where there is no path entry.
// No Option: 255 is the sheet's own byte, and no class is above it, so that a comparison with it needs no case.
#[derive(Clone, Copy)]
pub struct Point {
    pub dnp: f64,
    pub bearing: u16,
    pub frc: u8,
    pub fow: u8,
    pub limit: u8,
}

// A measured row: the projection of a point onto a road.
#[derive(Clone, Copy)]
pub struct Row {
    pub road: usize,
    pub distance_m: f64,
    pub bearing: f64,
    pub along_m: f64,
    pub length_m: f64,
}

// A road with its number. Roads are compared by number, never by id.
// `frc` and `fow` stay the White Paper's numbers, 0 to 7: classes are compared and subtracted, and the table of scores is indexed by forms of way.
#[derive(Clone, Copy)]
pub struct Road {
    pub number: usize,
    pub id: u64,
    pub length_m: f64,
    pub source: usize,
    pub target: usize,
    pub frc: u8,
    pub fow: u8,
    pub access: bool,
}

// What binds the roads of a leg: the raised class limit, `NO_LIMIT` for none as in `Point`, and the metres that a slip road or an access road costs beside its length.
#[derive(Clone, Copy)]
pub struct AStarConstraints {
    pub max_frc: u8,
    pub slip_road_cost_penalty: f64,
    pub access_road_cost_penalty: f64,
}

// What a leg accepts: its DNP, the least and the greatest length, how far its searches go, and what binds its roads.
#[derive(Clone, Copy)]
pub struct Limits {
    pub dnp: f64,
    pub min_distance: f64,
    pub max_valid_distance: f64,
    pub max_search_distance: f64,
    pub constraints: AStarConstraints,
}

// A neighbour of a node, with the roads in from it and out to it: numbers, since the definition counts them.
#[derive(Clone, Copy)]
pub struct Neighbour {
    pub node: usize,
    pub ins: usize,
    pub outs: usize,
}

// The limit of a point that has no path entry.
pub const NO_LIMIT: u8 = 255;

// The greatest counts of a sheet: P, N, E, M, G, the rows of one point, and the most candidates.
pub const MOST_POINTS: usize = 16;

pub const MOST_NODES: usize = 1024;

pub const MOST_ROADS: usize = 4096;

pub const MOST_ROWS: usize = 1024;

pub const MOST_GOALS: usize = 1024;

pub const MOST_MEASURED: u32 = 64;

pub const MOST_CANDIDATES: u16 = 64;
