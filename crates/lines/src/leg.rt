// One leg: what it accepts, its route, and what it leaves.
ghost use Rattle.std.specs.Prelude.{◌≡◌, ◌+◌, ◌≤◌, ◌<◌, length};
ghost use Rattle.sheet.specs.Contents.{contents};
ghost use Rattle.candidates.specs.Found.{CandidatesOf};
ghost use Rattle.search.specs.Areas.{SameRoom};
ghost use Rattle.search.specs.Traces.{traced_numbers};
ghost use Rattle.full_path.specs.Left.{path_of, middle_count, Known, OnRoads, SameAreas, RoomFor};
ghost use Rattle.lines.specs.Legs.{leg_limits, refused_leg, Traceable, marked_way, RouteWritten, LegWritten};

use crate::{SegmentInfo, WrittenLeg};
use candidates::candidate::Candidate;
use full_path::{Coverages, Covering, path};
use legs::{Leg, LegError};
use model::Limits;
use model::error::DecodeError;
use rules::{Middle, PathResult, limits};
use search::areas::SearchAreas;
use search::route::Trace;
use sheet::Sheet;

// What the leg from point i accepts.
pub fn leg_limits(sheet: &Sheet<'_>, i: usize) -> Limits
    requires { i < sheet.now.counts.p }
    ensures { result ≡ leg_limits (contents sheet.now) i }
{
    limits::limits_of(sheet.settings(), sheet.point(i))
}

// Why leg i has no route. No `From` (no plainer): it needs the leg's number.
fn refused_leg(i: usize, e: LegError) -> DecodeError
    requires { i < usize.MAX }
    ensures { result ≡ refused_leg i e }
{
    match e {
        LegError::NoPath => DecodeError::NoPath { from: i, to: i + 1 },
        LegError::HeapFull => DecodeError::HeapFull { leg: i },
    }
}

// The roads of a route's middle, if it has one, as the marks lead back over them.
fn traced<'a>(areas: &'a SearchAreas<'_>, middle: Option<Middle>) -> Option<Trace<'a>>
    requires { Traceable areas.now middle }
    ensures { traced_numbers result ≡ marked_way areas.now middle }
{
    let m = middle?;
    Some(areas.trace(m.goal, m.count))
}

// What a leg leaves of its route: its roads behind the first `at` of `ids`, but for a first one that is the last written, and its coverages behind those that are there.
// Eight parameters, here and below (no plainer): each is lent or changed apart, and `middle` borrows the areas, which `route` outlives.
pub fn leave(
    sheet: &Sheet<'_>,
    covering: Covering,
    dnp: f64,
    route: &PathResult,
    middle: Option<Trace<'_>>,
    coverages: &mut Coverages<'_>,
    at: usize,
    ids: &mut [u64],
) -> WrittenLeg
    requires known { Known (contents sheet.now) sheet.now.counts route.now (traced_numbers middle) × (length (traced_numbers middle) ≡ middle_count route.now) × OnRoads sheet.now.counts.e coverages.old }
    requires room { RoomFor (sheet.now.counts.n + 1) coverages.old × (at + sheet.now.counts.n + 1 ≤ length ids.old) }
    ensures same_areas { SameAreas coverages.old coverages.new }
    ensures written { RouteWritten (contents sheet.now) sheet.now.counts covering dnp at ids.old coverages.old
        (path_of (contents sheet.now) route.now (traced_numbers middle.entry)) ids.new coverages.new result }
{
    let from = path::append_leg(route, middle, at, ids);
    let start = from + usize::from(route.head.is_some());
    let end = start + route.middle.map_or(0, |m| m.count);
    coverages.cover_leg(sheet, covering, route, &ids[start..end]);
    let roads = path::count_roads(route);
    WrittenLeg {
        written: from + roads - at,
        segment: SegmentInfo {
            length_m: route.total_length,
            expected_m: dnp,
            start_offset_m: route.start_offset_m,
            end_offset_m: route.end_offset_m,
        },
    }
}

// The leg from point i, whose candidates are `starts`, to the next one, whose candidates are `ends`: its best route, and what that leaves.
pub fn walk_leg(
    areas: &mut SearchAreas<'_>,
    i: usize,
    starts: &[Candidate],
    ends: &[Candidate],
    covering: Covering,
    coverages: &mut Coverages<'_>,
    at: usize,
    ids: &mut [u64],
) -> Result<WrittenLeg, DecodeError>
    requires points { (i + 1 < areas.old.sheet.counts.p) × (0 < areas.old.sheet.counts.n) × CandidatesOf (contents areas.old.sheet) areas.old.sheet.counts i starts.now × CandidatesOf (contents areas.old.sheet) areas.old.sheet.counts (i + 1) ends.now }
    requires room { OnRoads areas.old.sheet.counts.e coverages.old × RoomFor (areas.old.sheet.counts.n + 1) coverages.old × (at + areas.old.sheet.counts.n + 1 ≤ length ids.old) }
    ensures same_room { SameRoom areas.old areas.new × SameAreas coverages.old coverages.new }
    ensures written { LegWritten (contents areas.old.sheet) areas.old.sheet.counts areas.old.slots i covering at ids.old coverages.old ids.new coverages.new result }
{
    let sheet = areas.sheet;
    let limits = leg_limits(&sheet, i);
    let leg = Leg { limits };
    let route = leg
        .find_best_path(starts, ends, areas)
        .map_err(|e| refused_leg(i, e))?;
    let middle = traced(areas, route.middle);
    Ok(leave(
        &sheet, covering, limits.dnp, &route, middle, coverages, at, ids,
    ))
}
