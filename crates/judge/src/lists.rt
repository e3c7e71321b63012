// Refusal 5: the lists.
ghost use Rattle.std.specs.Prelude.{◌≡◌, ◌<◌, ◌≤◌};
ghost use Rattle.model.specs.Table.{every};
ghost use Rattle.model.specs.Judge.{start_rises, in_part, entry_good, lists_good};

use model::MOST_ROADS;
use sheet::SoundSheet;

// The start positions never fall: one mark for all, without a branch, for the judge's bar of speed (docs/PERFORMANCE.md).
#[tactic(auto, using(crate::proofs::Tests::every_none, crate::proofs::Tests::every_more))]
fn starts_rise(sheet: &SoundSheet<'_>) -> bool
    ensures { result ≡ every (start_rises sheet.now.bytes.now sheet.now.counts) sheet.now.counts.n 0 }
{
    let mut rises = true;
    for i in 0..sheet.counts.n {
        rises &= sheet.start(i) <= sheet.start(i + 1);
    }
    rises
}

// Place j lies in node i's part.
fn in_part(sheet: &SoundSheet<'_>, i: usize, j: usize) -> bool
    requires { i < sheet.now.counts.n }
    ensures { result ≡ in_part sheet.now.bytes.now sheet.now.counts i j }
{
    (sheet.start(i)..sheet.start(i + 1)).contains(&j)
}

// Each road stands in its source's part, once: a mark for each road that was met, in an array, since there is no heap.
fn entries_once<const N: usize>(sheet: &SoundSheet<'_>) -> bool
    requires { sheet.now.counts.e ≤ N }
    ensures { result ≡ every (entry_good sheet.now.bytes.now sheet.now.counts) sheet.now.counts.e 0 }
{
    let mut marks = [false; N];
    for j in 0..sheet.counts.e {
        let road = sheet.entry(j);
        let source = sheet.source(road);
        if !in_part(sheet, source, j) || marks[road] {
            return false;
        }
        marks[road] = true;
    }
    true
}

// The same, with marks for few roads or for all that a sheet can have: to clear those takes longer than to judge a small sheet.
fn entries_good(sheet: &SoundSheet<'_>) -> bool
    ensures { result ≡ every (entry_good sheet.now.bytes.now sheet.now.counts) sheet.now.counts.e 0 }
{
    if sheet.counts.e <= 256 {
        entries_once::<256>(sheet)
    } else {
        entries_once::<MOST_ROADS>(sheet)
    }
}

// Start positions: first 0, last E, never falling; then each road in its source's part once.
#[tactic(auto, unfolding(model::specs::Judge::lists_good, model::specs::Table::all_of, model::specs::Table::all_after))]
#[inline(never)]
pub(crate) fn lists_good(sheet: &SoundSheet<'_>) -> bool
    ensures { result ≡ lists_good sheet.now.bytes.now sheet.now.counts }
{
    sheet.start(0) == 0
        && sheet.start(sheet.counts.n) == sheet.counts.e
        && starts_rise(sheet)
        && entries_good(sheet)
}
