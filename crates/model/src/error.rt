// Why nothing is matched. The names are the original's where it has the error.
ghost use Rattle.std.specs.Prelude.{◌≡◌};
ghost use Rattle.model.specs.Refusals.{number_of, place_a, place_b};

use crate::kind::Kind;

#[derive(Clone, Copy, PartialEq, Eq, Debug)]
pub enum DecodeError {
    // Under 56 bytes.
    TooShort,
    // A count above its limit, or a point along a line without two points.
    BadCounts,
    // Offsets, total or final zero wrong.
    BadOffsets,
    // The first field out of range, or nonzero spare byte, begins at this offset of the sheet.
    BadField { at: usize },
    // Starts, lists, order, row sum or goal rules broken.
    BadOrder,
    // A work area or an answer list is too small.
    NoRoom,
    // A kind of reference that is not decoded.
    UnsupportedType { kind: Kind },
    NoPoints,
    // This point has no candidate, or none is near enough.
    NoCandidates { index: usize },
    NoPath { from: usize, to: usize },
    // The heap was used up in a search of this leg.
    HeapFull { leg: usize },
}

impl DecodeError {
    // The refusal's number. A match, since no cast takes an enum whose variants have fields.
    pub fn number(self) -> usize
        ensures { result ≡ number_of self }
    {
        match self {
            DecodeError::TooShort => 1,
            DecodeError::BadCounts => 2,
            DecodeError::BadOffsets => 3,
            DecodeError::BadField { .. } => 4,
            DecodeError::BadOrder => 5,
            DecodeError::NoRoom => 6,
            DecodeError::UnsupportedType { .. } => 7,
            DecodeError::NoPoints => 8,
            DecodeError::NoCandidates { .. } => 9,
            DecodeError::NoPath { .. } => 10,
            DecodeError::HeapFull { .. } => 11,
        }
    }

    // Its places A and B, 0 where there is none: the form of the table, which the C interface hands on.
    pub fn places(self) -> (usize, usize)
        ensures { (result.0 ≡ place_a self) × (result.1 ≡ place_b self) }
    {
        match self {
            DecodeError::BadField { at } => (at, 0),
            DecodeError::UnsupportedType { kind } => (kind.number(), 0),
            DecodeError::NoCandidates { index } => (index, 0),
            DecodeError::NoPath { from, to } => (from, to),
            DecodeError::HeapFull { leg } => (leg, 0),
            _ => (0, 0),
        }
    }
}
