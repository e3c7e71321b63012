// From the path of a reference to its answer: the primary road, the walks at both ends, the answer lists.
#![tactic(auto)]

ghost use Rattle.std.specs.Prelude.{◌≡◌, ℕ, ◌+◌, ◌*◌, ◌≤◌, ◌<◌, length, Ok};
ghost use Rattle.model.specs.Sheet as definition;
ghost use Rattle.model.specs.View.{view};
ghost use Rattle.model.specs.Search.{bounded_astar};
ghost use Rattle.model.specs.Refusals.{number_of, place_a, place_b};
ghost use Rattle.model.specs.Decode.{refused, matched, outcome};
ghost use Rattle.model.specs.Decode as decode;
ghost use Rattle.model.specs.Call.{answered, most_entries};
ghost use Rattle.sheet.specs.Contents.{contents};
ghost use Rattle.answers.specs.Room.{lists, decoded};
ghost use Rattle.search.specs.Answers.{RoadNumbers};
ghost use Rattle.full_path.specs.declared.Coverages.{Coverages};
ghost use Rattle.full_path.specs.Left.{coverage_of, Covers};
ghost use Rattle.lines.specs.Legs.{PathWritten, LegsWritten};

use answers::{Answer, Match};
use ends::caps;
use full_path::{EdgeCoverage, coverage};
use lines::FullPath;
use model::error::DecodeError;
use sheet::Sheet;

// A refusal's answer: zeros in both lists.
// Two slices, here and below, as in answers: the lists are lent apart, and `ids` is read as the path first.
#[tactic(auto, unfolding(model::specs::Call::answered, model::specs::Call::written, model::specs::Lists::pad, answers::specs::Room::answer_of))]
fn refuse(e: DecodeError, ids: &mut [u64], lengths: &mut [f64]) -> Answer
    ensures { (t : definition.Sheet) → decoded result ids.new lengths.new ≡ answered t (lists ids.old lengths.old) (refused (number_of e) (place_a e) (place_b e)) }
{
    ids.fill(0);
    lengths.fill(0.0);
    Err(e)
}

// A match, with the primary road and its coverage: the path goes from `ids` to `path`, is walked on at both ends, and comes back into both lists.
// A count beside `path` (fixed memory): the walks add roads behind it.
fn finish_path(
    sheet: &Sheet<'_>,
    x: FullPath,
    primary: EdgeCoverage,
    path: &mut [usize],
    ids: &mut [u64],
    lengths: &mut [f64],
) -> Match
    requires written { (primary.edge_idx < sheet.now.counts.e) × (0 < x.written) × RoadNumbers sheet.now.counts.e x.written ids.old }
    requires room { (x.written + 4 * sheet.now.counts.n ≤ length path.old) × (x.written + 4 * sheet.now.counts.n ≤ length ids.old) × (x.written + 4 * sheet.now.counts.n ≤ length lengths.old) }
    ensures { (k : decode.FullPath) → PathWritten k ids.old x
        → decoded (Ok result) ids.new lengths.new ≡ answered (contents sheet.now) (lists ids.old lengths.old) (matched k (coverage_of (contents sheet.now) primary)) }
{
    let set = sheet.settings();
    let n = x.written;
    answers::take_numbers(&ids[..n], path);
    let first = x.first;
    let last = x.last;
    let start_cap = caps::snap_cap_m(set, first.expected_m, first.length_m);
    let end_cap = caps::snap_cap_m(set, last.expected_m, last.length_m);
    let f = ends::finalize_path(
        sheet,
        path,
        n,
        start_cap,
        end_cap,
        first.start_offset_m,
        last.end_offset_m,
    );
    answers::write_path(sheet, &path[..f.count], ids, lengths);
    Match {
        count: f.count,
        length_m: x.total_length,
        start_offset: f.start_offset,
        start_fraction: f.start_fraction,
        end_offset: f.end_offset,
        end_fraction: f.end_fraction,
        primary: sheet.id(primary.edge_idx),
        coverage: primary.coverage_m,
    }
}

// The answer of a reference whose legs ended so, with these coverages, and both answer lists: a refusal zeroes them. A path without coverage is refused from the first point to the last. The coverages are of the first of `roads`, as many as there are `metres`; the whole of it is the path's work area afterwards.
#[tactic(auto, using(crate::proofs::Closing::walks_fit))]
pub fn answer(
    sheet: &Sheet<'_>,
    found: Result<FullPath, DecodeError>,
    roads: &mut [usize],
    metres: &[f64],
    ids: &mut [u64],
    lengths: &mut [f64],
) -> Answer
    requires found { (slots : ℕ) × (x : Coverages) × Covers x roads.old metres.now × LegsWritten (contents sheet.now) sheet.now.counts (outcome (view (contents sheet.now)) (bounded_astar slots)) ids.old x found }
    requires room { let most = most_entries sheet.now.counts.p sheet.now.counts.n in (length metres.now ≤ length roads.old) × (most ≤ length roads.old) × (most ≤ length ids.old) × (most ≤ length lengths.old) }
    ensures { (slots : ℕ) (x : Coverages) → Covers x roads.old metres.now → LegsWritten (contents sheet.now) sheet.now.counts (outcome (view (contents sheet.now)) (bounded_astar slots)) ids.old x found
        → decoded result ids.new lengths.new ≡ answered (contents sheet.now) (lists ids.old lengths.old) (outcome (view (contents sheet.now)) (bounded_astar slots)) }
{
    let legs = match found {
        Ok(legs) => legs,
        Err(e) => return refuse(e, ids, lengths),
    };
    let Some(primary) = coverage::primary_edge(&roads[..metres.len()], metres) else {
        let from = 0;
        let to = sheet.counts.p - 1;
        return refuse(DecodeError::NoPath { from, to }, ids, lengths);
    };
    Ok(finish_path(sheet, legs, primary, roads, ids, lengths))
}
