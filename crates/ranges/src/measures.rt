// A run of f64, judged about as fast as it can be read.
ghost use Rattle.std.specs.Prelude.{◌≡◌, ◌+◌, ◌*◌, ◌≤◌, length, true, Ok, All};
ghost use Rattle.std.specs.Int.{w64, from_le_bytes};
ghost use Rattle.model.specs.Table.{check_then, records, most_f64};
ghost use Rattle.model.specs.Table as table;
ghost use Rattle.model.specs.Judge.{distance_table};

use crate::need::run;
use crate::records;

// Whether f64 are all good, with no branch on any of them, for the judge's bar of speed: `all` in a loop of its own takes twice as long, `max` three times.
// Bits v up to MOST have a clear top bit, and so has MOST - v; of greater bits one of the two is set.
fn all_measured(words: &[[u8; 8]]) -> bool
    ensures { result ≡ true → All (λ w. from_le_bytes w64 w ≤ most_f64) words.now }
{
    let mut all: u64 = 0;
    for word in words {
        let v = u64::from_le_bytes(*word);
        let w = fields::MOST.wrapping_sub(v);
        all |= v | w;
    }
    all < 0x8000_0000_0000_0000
}

// k distances: one by one only where one is bad. One function with `parts::numbers` would be no plainer: width, test and table differ, the same is one `if`.
pub fn distances(s: &[u8], base: usize, k: usize) -> Result<(), usize>
    requires { base + k * 8 ≤ length s.now }
    ensures { result ≡ records s.now 8 distance_table k base }
{
    if all_measured(fields::words(s, base, k)) {
        return Ok(());
    }
    run(base, 8, k, |at| records::distance(s, at))
}

// k measures of a record, from `off`.
pub(crate) fn measures(s: &[u8], at: usize, off: usize, k: usize) -> Result<(), usize>
    requires { at + off + k * 8 ≤ length s.now }
    ensures { result ≡ check_then s.now at (table.measures off k) (Ok tt) }
{
    distances(s, at + off, k)
}
