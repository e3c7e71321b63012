// The candidates of a point that a leg may try: the best ten of the rows that pass, in order.
ghost use Rattle.std.specs.Prelude.{◌<◌};
ghost use Rattle.sheet.specs.Contents.{contents};
ghost use Rattle.candidates.specs.Found.{CandidatesOf};

use crate::best::Best;
use crate::passing::Passing;
use sheet::Sheet;

// How many candidates of a point a leg tries.
pub const MOST_TRIED: usize = 10;

// A point's candidates, best first.
pub type Candidates = Best<MOST_TRIED>;

// The candidates of point i that a leg tries, best first. Rows come in the order of their roads' numbers, so among equal scores the smaller number stays in front.
pub fn find_candidates(sheet: &Sheet<'_>, i: usize) -> Candidates
    requires { i < sheet.now.counts.p }
    ensures { CandidatesOf (contents sheet.now) sheet.now.counts i result }
{
    let wanted = usize::from(sheet.settings().max_candidates);
    Best::of(Passing::new(sheet, i), wanted.min(MOST_TRIED))
}
