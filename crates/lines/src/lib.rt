// decode_line and decode_point_along_line up to the ends: the legs one after the other, and what they leave in the lent areas.
#![tactic(auto)]

pub mod leg;
pub mod runs;

// SegmentInfo: a leg's length, its DNP and its offsets.
#[derive(Clone, Copy, Default)]
pub struct SegmentInfo {
    pub length_m: f64,
    pub expected_m: f64,
    pub start_offset_m: f64,
    pub end_offset_m: f64,
}

// A leg's route: how many roads it wrote, and its segment.
#[derive(Clone, Copy)]
pub struct WrittenLeg {
    pub written: usize,
    pub segment: SegmentInfo,
}

// What the legs leave beside their roads and coverages: how many roads they wrote, the sum of their lengths, the first and the last segment.
// A count beside `ids` (fixed memory): the roads to come go into the room behind those written.
#[derive(Clone, Copy, Default)]
pub struct FullPath {
    pub written: usize,
    pub total_length: f64,
    pub first: SegmentInfo,
    pub last: SegmentInfo,
}
