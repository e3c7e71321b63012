// Refusals 1 to 5 in their order.
ghost use Rattle.std.specs.Prelude.{◌≡◌, ◌≤◌, length, IfOk};
ghost use Rattle.model.specs.Layout.{header_size, total, counts_of};
ghost use Rattle.model.specs.Judge.{counts_good, offsets_good, fields_good, judged};
ghost use Rattle.judge.specs.Verdict.{judged_as};

use crate::{lists, rows};
use model::Counts;
use model::error::DecodeError;
use model::kind::Kind;
use ranges::parts;
use sheet::layout::Layout;
use sheet::{Sheet, SoundSheet, numbers};

// Refusal 2.
#[tactic(auto, unfolding(model::specs::Judge::counts_good, model::specs::Table::all_of, model::specs::Table::all_after))]
fn counts_good(c: Counts) -> bool
    ensures { result ≡ counts_good c }
{
    c.p <= model::MOST_POINTS
        && c.n <= model::MOST_NODES
        && c.e <= model::MOST_ROADS
        && c.m <= model::MOST_ROWS
        && c.g <= model::MOST_GOALS
        && (c.kind != Kind::PointAlongLine.number() || c.p == 2)
}

// Refusal 3.
#[tactic(auto, unfolding(model::specs::Judge::offsets_good, model::specs::Table::all_of, model::specs::Table::all_after))]
fn offsets_good(s: &[u8], layout: Layout) -> bool
    requires { header_size ≤ length s.now }
    ensures { result ≡ offsets_good s.now layout.counts }
{
    let total = layout.total();
    fields::count_at(s, 24) == 56
        && fields::count_at(s, 28) == 168
        && fields::count_at(s, 32) == layout.roads()
        && fields::count_at(s, 36) == layout.lists()
        && fields::count_at(s, 40) == layout.rows()
        && fields::count_at(s, 44) == layout.distances()
        && fields::count_at(s, 48) == total
        && total == s.len()
        && fields::count_at(s, 52) == 0
}

// Refusal 4: where the first bad field begins.
#[tactic(auto, using(crate::proofs::Thens::ok_then, crate::proofs::Thens::err_then), unfolding(model::specs::Judge::fields_good, model::specs::Table::first_bad, model::specs::Table::first_bad_after))]
#[inline(never)]
fn fields_good(s: &[u8], layout: Layout) -> Result<(), usize>
    requires { length s.now ≡ total layout.counts }
    ensures { result ≡ fields_good s.now layout.counts }
{
    let counts = layout.counts;
    parts::header(s, 0, 1)?;
    parts::settings(s, 56, 1)?;
    parts::points(s, 168, counts.p)?;
    parts::roads(s, layout.roads(), counts.e, counts.n)?;
    parts::numbers(s, layout.numbers(), counts.e, counts.e)?;
    parts::rows(s, layout.rows(), counts.m, counts.e)?;
    parts::distances(s, layout.distances(), counts.n + counts.n)?;
    parts::goals(s, layout.goals(), counts.g, counts.n)
}

// A well-formed sheet of these bytes, or the first of refusals 1 to 5.
#[tactic(auto, using(model::proofs::Judging::small, model::proofs::Judging::whole), unfolding(model::specs::Judge::judged, model::specs::Judge::refuse, model::specs::Judge::refuse_field))]
pub fn judge(bytes: &[u8]) -> Result<Sheet<'_>, DecodeError>
    ensures judged { judged_as result ≡ judged bytes.now }
    ensures sheet { IfOk result (λ sheet. (sheet.bytes.now ≡ bytes.now) × (sheet.counts ≡ counts_of bytes.now)) }
{
    if bytes.len() < 56 {
        return Err(DecodeError::TooShort);
    }
    let counts = numbers::counts(bytes);
    if !counts_good(counts) {
        return Err(DecodeError::BadCounts);
    }
    let layout = Layout { counts };
    if !offsets_good(bytes, layout) {
        return Err(DecodeError::BadOffsets);
    }
    fields_good(bytes, layout).map_err(|at| DecodeError::BadField { at })?;
    let sound = SoundSheet { bytes, counts };
    if !lists::lists_good(&sound) || !rows::rows_good(&sound) {
        return Err(DecodeError::BadOrder);
    }
    Ok(Sheet { bytes, counts })
}
