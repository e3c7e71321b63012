// The kinds of reference. A header has a kind's number, which may be any until the fields are judged.
ghost use Rattle.std.specs.Prelude.{◌≡◌};
ghost use Rattle.model.specs.Kinds.{kind_number, Names};

#[derive(Clone, Copy, PartialEq, Eq, Debug)]
pub enum Kind {
    Line = 1,
    PointAlongLine = 2,
    GeoCoordinate = 3,
    Poi = 4,
    Circle = 5,
    Rectangle = 6,
    Grid = 7,
    Polygon = 8,
    ClosedLine = 9,
}

// A number that no kind has.
#[derive(Clone, Copy, PartialEq, Eq, Debug)]
pub struct UnknownKind;

// By hand both ways: Rust derives no conversion between an enum and its numbers.
impl Kind {
    pub fn number(self) -> usize
        ensures { result ≡ kind_number self }
    {
        self as usize
    }
}

impl TryFrom<usize> for Kind {
    type Error = UnknownKind;

    ghost try_from_gives = { Names };

    fn try_from(number: usize) -> Result<Self, UnknownKind> {
        match number {
            1 => Ok(Kind::Line),
            2 => Ok(Kind::PointAlongLine),
            3 => Ok(Kind::GeoCoordinate),
            4 => Ok(Kind::Poi),
            5 => Ok(Kind::Circle),
            6 => Ok(Kind::Rectangle),
            7 => Ok(Kind::Grid),
            8 => Ok(Kind::Polygon),
            9 => Ok(Kind::ClosedLine),
            _ => Err(UnknownKind),
        }
    }
}
