// The parts of a sheet: the first bad field of each. The parameters are those of the definition's `records`, so a struct of them would be no plainer.
ghost use Rattle.std.specs.Prelude.{◌≡◌, ◌+◌, ◌*◌, ◌≤◌, ◌<◌, length, true, All};
ghost use Rattle.std.specs.Int.{w32, from_le_bytes};
ghost use Rattle.model.specs.Layout.{goal_width};
ghost use Rattle.model.specs.Table.{records};
ghost use Rattle.model.specs.Judge.{header_table, settings_table, point_table, road_table, number_table, row_table, goal_table};

pub use crate::measures::distances;
use crate::need::run;
use crate::records;

// k kinds of reference: the header's is one.
pub fn header(s: &[u8], base: usize, k: usize) -> Result<(), usize>
    requires { base + k * 4 ≤ length s.now }
    ensures { result ≡ records s.now 4 header_table k base }
{
    run(base, 4, k, |at| records::kind(s, at))
}

// k settings: a sheet has one.
pub fn settings(s: &[u8], base: usize, k: usize) -> Result<(), usize>
    requires { base + k * 112 ≤ length s.now }
    ensures { result ≡ records s.now 112 settings_table k base }
{
    run(base, 112, k, |at| records::settings(s, at))
}

// k location reference points.
pub fn points(s: &[u8], base: usize, k: usize) -> Result<(), usize>
    requires { base + k * 24 ≤ length s.now }
    ensures { result ≡ records s.now 24 point_table k base }
{
    run(base, 24, k, |at| records::point(s, at))
}

// k roads, on a sheet of n nodes.
pub fn roads(s: &[u8], base: usize, k: usize, n: usize) -> Result<(), usize>
    requires { base + k * 32 ≤ length s.now }
    ensures { result ≡ records s.now 32 (road_table n) k base }
{
    run(base, 32, k, |at| records::road(s, at, n))
}

// k measured rows, on a sheet of e roads.
pub fn rows(s: &[u8], base: usize, k: usize, e: usize) -> Result<(), usize>
    requires { base + k * 40 ≤ length s.now }
    ensures { result ≡ records s.now 40 (row_table e) k base }
{
    run(base, 40, k, |at| records::row(s, at, e))
}

// k goal rows, on a sheet of n nodes.
pub fn goals(s: &[u8], base: usize, k: usize, n: usize) -> Result<(), usize>
    requires { base + k * goal_width n ≤ length s.now }
    ensures { result ≡ records s.now (goal_width n) (goal_table n) k base }
{
    // Without a row nothing bounds n, and the width may not fit.
    if k == 0 {
        return Ok(());
    }
    run(base, 8 + n * 8, k, |at| records::goal(s, at, n))
}

// Whether numbers are all below n, by the greatest, which for measures misses the bar of speed; a cast, since Rust has no `From` from u32 to usize.
fn all_below(words: &[[u8; 4]], n: usize) -> bool
    ensures { result ≡ true → All (λ w. from_le_bytes w32 w < n) words.now }
{
    let greatest = words.iter().map(|word| u32::from_le_bytes(*word)).max();
    greatest.is_none_or(|most| (most as usize) < n)
}

// k numbers of roads, on a sheet of e roads: one by one only where one is bad. One function with `distances` would be no plainer: width, test and table differ, the same is one `if`.
pub fn numbers(s: &[u8], base: usize, k: usize, e: usize) -> Result<(), usize>
    requires { base + k * 4 ≤ length s.now }
    ensures { result ≡ records s.now 4 (number_table e) k base }
{
    if all_below(fields::words(s, base, k), e) {
        return Ok(());
    }
    run(base, 4, k, |at| records::number(s, at, e))
}
