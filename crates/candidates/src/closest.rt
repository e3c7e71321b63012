// Whether every point has a candidate, and the nearest one of all is near enough: no list of candidates is made where the rows alone decide.
ghost use Rattle.std.specs.Prelude.{◌≡◌, ◌≤◌, ◌<◌, List, ltb, length};
ghost use Rattle.std.specs.Iterator.{Drains, UpTo};
ghost use Rattle.model.specs.Layout.{most_measured};
ghost use Rattle.model.specs.Candidates.{nearest};
ghost use Rattle.sheet.specs.Contents.{contents};
ghost use Rattle.candidates.specs.Found.{candidates_at};
ghost use Rattle.candidates.specs.Points.{candidates_of, close_enough, points_of};
ghost use Rattle.candidates.specs.Nearest.{EqualAmounts, seen_of};
ghost use Rattle.candidates.specs.declared.candidate.Candidate as code;

use crate::best::Best;
use crate::candidate::Candidate;
use crate::passing::Passing;
use model::MOST_MEASURED;
use model::error::DecodeError;
use sheet::Sheet;

// The most rows of a point that pass: all that it may have. A cast, as Rust has no `From` from u32 to usize.
const MOST_PASSING: usize = MOST_MEASURED as usize;

// How many rows of a point pass, and the least distance of these.
// No Option of a distance: infinity stands for none, as in the definition, so a comparison needs no case.
#[derive(Clone, Copy)]
pub struct Seen {
    pub passing: usize,
    pub least: f64,
}

// Whether point i has a candidate: the first row that passes settles it.
#[tactic(auto, using(crate::proofs::Listed::none_wanted, crate::proofs::Listed::first_asked))]
fn has_candidate(sheet: &Sheet<'_>, i: usize) -> bool
    requires { i < sheet.now.counts.p }
    ensures { result ≡ ltb 0 (length (candidates_at (contents sheet.now) i)) }
{
    0 < sheet.settings().max_candidates && Passing::new(sheet, i).next().is_some()
}

// How many candidates come, and the least distance of these; infinity where none does.
#[tactic(auto, using(crate::proofs::Distances::least_none, crate::proofs::Distances::least_nearer, crate::proofs::Distances::least_stays))]
fn look<I: Iterator<Item = Candidate> + Drop>(rows: I) -> Seen
    requires can { I.can_next rows }
    requires few { UpTo (I.remaining rows) most_measured }
    ensures sees { (xs : List code.Candidate) × Drains I.next_gives rows xs × (result ≡ seen_of xs) }
    ensures few { result.passing ≤ most_measured }
{
    // One loop for the count and the least: two library methods would go through the rows twice.
    let mut passing = 0;
    let mut least = f64::INFINITY;
    for x in rows {
        passing += 1;
        if x.distance_m < least {
            least = x.distance_m;
        }
    }
    Seen { passing, least }
}

// The least distance of point i's candidates. Where no more rows pass than there may be candidates, every one of them is kept and no order is needed.
#[inline(never)]
fn nearest(sheet: &Sheet<'_>, i: usize) -> f64
    requires { i < sheet.now.counts.p }
    ensures { EqualAmounts result (nearest (candidates_at (contents sheet.now) i)) }
{
    let all = look(Passing::new(sheet, i));
    let most = usize::from(sheet.settings().max_candidates);
    let uncut = all.passing <= most;
    if uncut {
        return all.least;
    }
    let mut best: Best<MOST_PASSING> = Best::new();
    best.fill(Passing::new(sheet, i), most);
    look(best.as_slice().iter().copied()).least
}

// One near candidate settles the rule; else it names the point whose nearest candidate is the nearest of all, the first if equal.
#[tactic(auto, using(crate::proofs::Distances::infinity_is, crate::proofs::Pointwise::begun, crate::proofs::Pointwise::passed_closer, crate::proofs::Pointwise::passed_farther))]
fn close_enough(sheet: &Sheet<'_>) -> Result<(), DecodeError>
    ensures { result ≡ close_enough (contents sheet.now).settings.max_candidate_distance_m (candidates_of (contents sheet.now)) }
{
    let most = sheet.settings().max_candidate_distance_m;
    // No plainer by `fold`: a point that is near enough ends the loop, and the place goes with the distance.
    let mut least = f64::INFINITY;
    let mut index = 0;
    for i in 0..sheet.counts.p {
        let d = nearest(sheet, i);
        if d <= most {
            return Ok(());
        }
        if d < least {
            least = d;
            index = i;
        }
    }
    Err(DecodeError::NoCandidates { index })
}

// The first point without a candidate; else what the closest-candidate rule says, if there are points.
#[tactic(auto, using(crate::proofs::Pointwise::filled_none, crate::proofs::Pointwise::filled, crate::proofs::Pointwise::empty, crate::proofs::Rules::no_points))]
pub fn require_close_candidate(sheet: &Sheet<'_>) -> Result<(), DecodeError>
    ensures { result ≡ points_of (contents sheet.now) }
{
    for index in 0..sheet.counts.p {
        if !has_candidate(sheet, index) {
            return Err(DecodeError::NoCandidates { index });
        }
    }
    if sheet.counts.p == 0 {
        return Ok(());
    }
    close_enough(sheet)
}
