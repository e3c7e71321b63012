// The call of a case, with as many entries of each area as its record says.
// Before the call every entry is 7: a case sees by that whether its lists stay untouched or are zeroed; what stands in the work areas has no part in an answer.
ghost use Rattle.std.specs.Prelude.{◌≡◌, true};
ghost use Rattle.replay.specs.Agreeing.{ListsAgree};

use crate::expected::Expected;
use crate::record::{MOST, Record};
use answers::Answer;

// What every entry holds before the call, in areas and lists of numbers.
pub const NUMBER: u64 = 7;

// The same in those of floats.
pub const FLOAT: f64 = 7.0;

// The call on the case's lists, with work areas as long as the record says.
fn call(record: &Record<'_>, sheet: &[u8], ids: &mut [u64], lengths: &mut [f64]) -> Answer {
    let mut labels = [FLOAT; 2 * MOST];
    let mut came_from = [7usize; MOST];
    let mut entries = [FLOAT; 2 * MOST];
    let mut links = [7usize; 2 * MOST];
    let mut covered = [7usize; MOST];
    let mut coverage = [FLOAT; MOST];
    decoder::decode(
        sheet,
        &mut labels[..record.halves(0)],
        &mut came_from[..record.size(2)],
        &mut entries[..record.halves(3)],
        &mut links[..record.halves(5)],
        &mut covered[..record.size(7)],
        &mut coverage[..record.size(8)],
        ids,
        lengths,
    )
}

// The call on lists that are as long as the case's, and the comparison.
fn run(
    record: &Record<'_>,
    sheet: &[u8],
    expected: &Expected<'_>,
    ids: &mut [u64],
    lengths: &mut [f64],
) -> bool
    ensures { result ≡ true → ListsAgree ids.new lengths.new expected.now }
{
    let answer = call(record, sheet, ids, lengths);
    expected.answer_agrees(answer) && expected.lists_agree(ids, lengths)
}

// Whether a case gives what it expects. A record that points out of the file or asks for too much does not.
pub fn agrees(record: &Record<'_>) -> bool {
    let (Some(sheet), Some(expected)) = (record.sheet(), record.expected()) else {
        return false;
    };
    if !record.sizes_fit() {
        return false;
    }
    let mut ids = [NUMBER; MOST];
    let mut lengths = [FLOAT; MOST];
    let ids = &mut ids[..record.size(9)];
    let lengths = &mut lengths[..record.size(10)];
    run(record, sheet, &expected, ids, lengths)
}
