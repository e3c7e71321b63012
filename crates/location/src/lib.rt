// One reference: its kind, its points and its legs, up to the walks at its ends.
#![tactic(auto)]

ghost use Rattle.std.specs.Prelude.{◌≡◌};
ghost use Rattle.model.specs.Kinds.{kind_number};
ghost use Rattle.model.specs.View.{view};
ghost use Rattle.model.specs.Search.{bounded_astar};
ghost use Rattle.model.specs.Decode.{outcome};
ghost use Rattle.sheet.specs.Contents.{contents};
ghost use Rattle.search.specs.Areas.{ListRoom, SameRoom};
ghost use Rattle.full_path.specs.Left.{SameAreas};
ghost use Rattle.lines.specs.Legs.{LegsWritten};
ghost use Rattle.location.specs.Reference.{AdmissionIs};

use candidates::closest;
use full_path::Coverages;
use lines::{FullPath, runs};
use model::error::DecodeError;
use model::kind::Kind;
use search::areas::SearchAreas;
use sheet::Sheet;

// The kind of reference.
fn kind(sheet: &Sheet<'_>) -> Kind
    ensures { kind_number result ≡ sheet.now.counts.kind }
{
    Kind::try_from(sheet.counts.kind).unwrap()
}

// Refusals 7 to 9, in the order of the table: the kind is that of a line or of a point along line, there are points, each has a candidate, and one of these is near enough.
// A `Kind`, which leaves `_` to the caller (no plainer): a type of its own would be `Kind` once more, with two of its names.
pub fn admit(sheet: &Sheet<'_>) -> Result<Kind, DecodeError>
    ensures { AdmissionIs (contents sheet.now) sheet.now.counts result }
{
    let kind = kind(sheet);
    if !matches!(kind, Kind::Line | Kind::PointAlongLine) {
        return Err(DecodeError::UnsupportedType { kind });
    }
    if sheet.counts.p == 0 {
        return Err(DecodeError::NoPoints);
    }
    closest::require_close_candidate(sheet)?;
    Ok(kind)
}

// A reference up to the walks at its ends: its path's road numbers in the front of `ids`, its coverages in the lent areas.
pub fn decode_legs(
    areas: &mut SearchAreas<'_>,
    coverages: &mut Coverages<'_>,
    ids: &mut [u64],
) -> Result<FullPath, DecodeError>
    requires list_room { ListRoom areas.old.sheet.counts coverages.old.roads.now coverages.old.metres.now ids.old }
    ensures same_room { SameRoom areas.old areas.new × SameAreas coverages.old coverages.new }
    ensures written { LegsWritten (contents areas.old.sheet) areas.old.sheet.counts (outcome (view (contents areas.old.sheet)) (bounded_astar areas.old.slots)) ids.new coverages.new result }
{
    let sheet = areas.sheet;
    match admit(&sheet)? {
        Kind::PointAlongLine => runs::decode_point_along_line(areas, coverages, ids),
        // A line: no other kind is admitted.
        _ => runs::decode_line(areas, coverages, ids),
    }
}
