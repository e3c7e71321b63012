// The legs of a reference one after the other.
ghost use Rattle.std.specs.Prelude.{◌≡◌, ◌+◌, ◌≤◌, ◌<◌};
ghost use Rattle.sheet.specs.Contents.{contents};
ghost use Rattle.search.specs.Areas.{ListRoom, SameRoom};
ghost use Rattle.full_path.specs.Left.{SameAreas};
ghost use Rattle.lines.specs.Legs.{line_outcome, point_along_line_outcome, extended_by, LegsWritten};

use crate::{FullPath, WrittenLeg, leg};
use candidates::find;
use full_path::{Coverages, Covering};
use model::error::DecodeError;
use search::areas::SearchAreas;

// The path of a line after leg i. Until leg 0 its first segment is the definition's zeros.
fn extended(path: FullPath, i: usize, leg: WrittenLeg) -> FullPath
    requires { path.written + leg.written ≤ usize.MAX }
    ensures { result ≡ extended_by i path leg }
{
    let segment = leg.segment;
    FullPath {
        written: path.written + leg.written,
        total_length: path.total_length + segment.length_m,
        first: if i == 0 { segment } else { path.first },
        last: segment,
    }
}

// decode_line. Each leg writes behind the roads already there; the candidates of its end are those of the next leg's start. Lengths are summed, and coverages per road.
// `areas, coverages, ids` together, here, below, in location and in decoder (no plainer): each is lent for itself, and the legs write only the ids of the answer.
// `0 < n`, `ListRoom` and `SameAreas` in several contracts (no plainer): only an admitted sheet has a node for sure, the others are of several values or of before and after.
// Two functions, this and decode_point_along_line (no plainer): the definition has two, one sums and the other does not, and one body would ask at each sum which of them it is.
pub fn decode_line(
    areas: &mut SearchAreas<'_>,
    coverages: &mut Coverages<'_>,
    ids: &mut [u64],
) -> Result<FullPath, DecodeError>
    requires points { (0 < areas.old.sheet.counts.n) × (0 < areas.old.sheet.counts.p) }
    requires list_room { ListRoom areas.old.sheet.counts coverages.old.roads.now coverages.old.metres.now ids.old }
    ensures same_room { SameRoom areas.old areas.new × SameAreas coverages.old coverages.new }
    ensures written { LegsWritten (contents areas.old.sheet) areas.old.sheet.counts (line_outcome (contents areas.old.sheet) areas.old.slots) ids.new coverages.new result }
{
    coverages.count = 0;
    let sheet = areas.sheet;
    let mut path = FullPath::default();
    let mut starts = find::find_candidates(&sheet, 0);
    for i in 0..sheet.counts.p - 1 {
        let ends = find::find_candidates(&sheet, i + 1);
        let leg = leg::walk_leg(
            areas,
            i,
            starts.as_slice(),
            ends.as_slice(),
            Covering::PerRoad,
            coverages,
            path.written,
            ids,
        )?;
        path = extended(path, i, leg);
        starts = ends;
    }
    Ok(path)
}

// decode_point_along_line: one leg, whose length is not added to 0 and whose coverages are not summed.
pub fn decode_point_along_line(
    areas: &mut SearchAreas<'_>,
    coverages: &mut Coverages<'_>,
    ids: &mut [u64],
) -> Result<FullPath, DecodeError>
    requires points { (0 < areas.old.sheet.counts.n) × (areas.old.sheet.counts.p ≡ 2) }
    requires list_room { ListRoom areas.old.sheet.counts coverages.old.roads.now coverages.old.metres.now ids.old }
    ensures same_room { SameRoom areas.old areas.new × SameAreas coverages.old coverages.new }
    ensures written { LegsWritten (contents areas.old.sheet) areas.old.sheet.counts (point_along_line_outcome (contents areas.old.sheet) areas.old.slots) ids.new coverages.new result }
{
    coverages.count = 0;
    let sheet = areas.sheet;
    let starts = find::find_candidates(&sheet, 0);
    let ends = find::find_candidates(&sheet, 1);
    let leg = leg::walk_leg(
        areas,
        0,
        starts.as_slice(),
        ends.as_slice(),
        Covering::PerPass,
        coverages,
        0,
        ids,
    )?;
    Ok(FullPath {
        written: leg.written,
        total_length: leg.segment.length_m,
        first: leg.segment,
        last: leg.segment,
    })
}
