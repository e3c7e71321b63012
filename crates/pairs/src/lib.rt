// The pairs of a leg in the order of their sums, one at a time. The candidates are sorted by score, so the next pair is one of the heads: of each start the first end that is not taken.
#![tactic(auto)]

ghost use Rattle.std.specs.Prelude.{◌≡◌, ℕ, ◌<◌, ◌≤◌, map, get_or, length, IfSome, IsSome, Float};
ghost use Rattle.pairs.specs.Left.{LeastOf, NextOf};

use candidates::candidate::Candidate;

// What has a score: all that the order reads.
pub trait HasScore {
    ghost score_of: { Self → Float };

    fn score(&self) -> f64
        ensures { result ≡ score_of self.now };
}

// Plain scores will do: the promise of `next_pair` is about scores alone.
impl HasScore for f64 {
    ghost score_of = { λ x. x };

    fn score(&self) -> f64 {
        *self
    }
}

impl HasScore for Candidate {
    ghost score_of = { λ x. x.score };

    fn score(&self) -> f64 {
        self.score
    }
}

// A pair by its start and its end.
#[derive(Clone, Copy)]
pub struct Next {
    pub start: usize,
    pub end: usize,
}

// The start whose head has the least sum, the first if equal, with that sum; none where no start has an end left.
fn least_head<S: HasScore>(starts: &[S], ends: &[S], heads: &[usize]) -> Option<(usize, f64)>
    requires { length starts.now ≤ length heads.now }
    ensures { LeastOf (map S.score_of starts.now) (map S.score_of ends.now) heads.now (length starts.now) result }
{
    let mut best = None;
    for (i, start) in starts.iter().enumerate() {
        if let Some(end) = ends.get(heads[i]) {
            let sum = start.score() + end.score();
            best = match best {
                Some((_, least)) if !(sum < least) => best,
                _ => Some((i, sum)),
            };
        }
    }
    best
}

// The next pair of those that are left; its start's head moves on. None where no pair is left.
// The heads are a slice of their own: they move on, and the candidates are only read.
#[tactic(auto, using(crate::proofs::NextLaws::none_left, crate::proofs::NextLaws::next_left))]
pub fn next_pair<S: HasScore>(starts: &[S], ends: &[S], heads: &mut [usize]) -> Option<Next>
    requires { length starts.now ≤ length heads.old }
    ensures within { IfSome result (λ p. (p.start < length starts.now) × (p.end < length ends.now)) }
    ensures some { (i : ℕ) → i < length starts.now → get_or heads.old i 0 < length ends.now → IsSome result }
    ensures next { NextOf (map S.score_of starts.now) (map S.score_of ends.now) heads.old heads.new result }
{
    let (start, _) = least_head(starts, ends, heads)?;
    let end = heads[start];
    heads[start] = end + 1;
    Some(Next { start, end })
}
