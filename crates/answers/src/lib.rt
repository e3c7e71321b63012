// The answer lists: whether there is room for them and for the work, and the path's ids and lengths in them.
#![tactic(auto)]

ghost use Rattle.std.specs.Prelude.{◌≡◌, ℕ, ◌≤◌, ◌<◌, length, get_or, take};
ghost use Rattle.model.specs.Call.{Lists, written, has_room, most_entries};
ghost use Rattle.sheet.specs.Contents.{contents};
ghost use Rattle.answers.specs.Room.{lent_of, lists};

use model::Counts;
use model::error::DecodeError;
use sheet::Sheet;

// The sizes of the lent areas in entries, each the least of its slices', and of the answer lists: five numbers, since the C interface lends each apart.
#[derive(Clone, Copy)]
pub struct Sizes {
    pub node: usize,
    pub heap: usize,
    pub coverage: usize,
    pub ids: usize,
    pub lengths: usize,
}

// A match: the path's road count, the sum of the legs, offset and fraction at both ends, the primary road's id and its coverage.
#[derive(Clone, Copy)]
pub struct Match {
    pub count: usize,
    pub length_m: f64,
    pub start_offset: f64,
    pub start_fraction: f64,
    pub end_offset: f64,
    pub end_fraction: f64,
    pub primary: u64,
    pub coverage: f64,
}

// All that a call returns: a match, or why there is none.
pub type Answer = Result<Match, DecodeError>;

// The most entries of a path, which refusal 6 asks of the coverage area and of both answer lists.
pub fn most_entries(points: usize, nodes: usize) -> usize
    requires { (points ≤ 16) × (nodes ≤ 1024) }
    ensures { result ≡ most_entries points nodes }
{
    let more = nodes + 1;
    (points + 4) * more
}

// Refusal 6 does not hold: every area and list is large enough for the sheet's counts.
#[tactic(auto, unfolding(model::specs::Call::has_room, model::specs::Table::all_of, model::specs::Table::all_after))]
pub fn has_room(c: Counts, a: Sizes) -> bool
    requires { (c.p ≤ 16) × (c.n ≤ 1024) }
    ensures { (l : Lists) → length l.ids ≡ a.ids → length l.lengths ≡ a.lengths → result ≡ has_room c.p c.n (lent_of a l) }
{
    let most = most_entries(c.p, c.n);
    c.n <= a.node && 1 <= a.heap && most <= a.coverage && most <= a.ids && most <= a.lengths
}

// Two slices for the lists of ids and lengths, here and in the crates above (no plainer): the caller lends them apart, the legs write the ids alone, and text only reads both.

// The numbers of a path, from the answer list to the front of an area of numbers. A cast: Rust has no `From` between u64 and usize.
// Written by index, here and below. By `iter_mut` the proof does not close: of what an adapter of it leaves nothing is known.
pub fn take_numbers(ids: &[u64], path: &mut [usize])
    requires { length ids.now ≤ length path.old }
    ensures { take (length ids.now) path.new ≡ ids.now }
{
    for (j, id) in ids.iter().enumerate() {
        path[j] = *id as usize;
    }
}

// The ids and lengths of the roads of `path`, and zeros behind them.
pub fn write_path(sheet: &Sheet<'_>, path: &[usize], ids: &mut [u64], lengths: &mut [f64])
    requires { (length path.now ≤ length ids.old) × (length path.now ≤ length lengths.old) × ((j : ℕ) → j < length path.now → get_or path.now j 0 < sheet.now.counts.e) }
    ensures { lists ids.new lengths.new ≡ written (contents sheet.now) path.now (lists ids.old lengths.old) }
{
    for (j, r) in path.iter().enumerate() {
        ids[j] = sheet.id(*r);
        lengths[j] = sheet.length_m(*r);
    }
    let n = path.len();
    ids[n..].fill(0);
    lengths[n..].fill(0.0);
}
