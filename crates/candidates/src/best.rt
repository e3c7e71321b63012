// The best of some candidates, in order.
ghost use Rattle.std.specs.Prelude.{◌≡◌, ◌≤◌, length, take, []};
ghost use Rattle.model.specs.Layout.{most_measured};
ghost use Rattle.model.specs.Lists.{insert, sort};
ghost use Rattle.bounds.specs.Amounts.{Amount};
ghost use Rattle.candidates.specs.Found.{lower, Measured, Rising};

use crate::candidate::Candidate;
use crate::passing::Passing;
use std::marker::Model;

// What stands in a place that is not used: an array made in place is copies of a constant.
// No plainer by `Default`: zeros are no candidate, and each crate could take them for one.
const NOTHING: Candidate = Candidate {
    edge_idx: 0,
    distance_m: 0.0,
    bearing_diff: 0.0,
    frc_diff: 0,
    fow_score: 0.0,
    score: 0.0,
    projection_fraction: 0.0,
};

// At most N candidates, in the first `count` places: fixed memory, so an array with a count.
#[derive(Clone, Copy)]
pub struct Best<const N: usize> {
    count: usize,
    items: [Candidate; N],
}

// Clauses see them in order: no score is below an earlier one. The places behind them hold nothing, so the list gives the array back.
impl<const N: usize> Model for Best<N> {
    ghost use Rattle.std.specs.Prelude.{◌≡◌, ◌≤◌, ◌-◌, ◌++◌, List, length, take, drop, replicate};
    ghost use Rattle.candidates.specs.declared.candidate.Candidate as code;

    ghost Value = { List code.Candidate };

    ghost use Rattle.candidates.specs.Found.{nothing, Rising};
    ghost use Rattle.candidates.specs.Places.{count_back, items_back};

    ghost view = { λ b. take b.count b.items };

    ghost invariant = { λ b. (b.count ≤ N) × Rising (take b.count b.items) × (length b.items ≡ N) × (drop b.count b.items ≡ replicate (N - b.count) nothing) };

    ghost inverse = { λ xs. record { count = length xs; items = xs ++ replicate (N - length xs) nothing } };

    ghost inverse_ok = { λ b h i. record {
      count = count_back N b.count b.items h.0 h.2 i;
      items = items_back N b.count b.items h.0 h.2 h.3 i;
    } };
}

impl<const N: usize> Best<N> {
    // The best `most` of the rows that are left. Among equal scores the earlier stays in front.
    pub fn of(rows: Passing<'_>, most: usize) -> Self
        requires measured { Measured rows }
        requires room { (most ≤ N) × (N ≤ most_measured) }
        ensures are { result ≡ take most (sort lower rows.entry) }
        ensures rising { Rising result }
    {
        let mut best = Best::new();
        best.fill(rows, most);
        best
    }

    // The same in an empty list, where it stands: a large one would be copied on its way out of `of`.
    #[tactic(auto, using(crate::proofs::Inserting::rising_none, crate::proofs::Inserting::kept_best, model::proofs::Members::here), unfolding(model::specs::Lists::fold))]
    pub(crate) fn fill(&mut self, rows: Passing<'_>, most: usize)
        requires none { self.old ≡ [] }
        requires measured { Measured rows }
        requires room { (most ≤ N) × (N ≤ most_measured) }
        ensures are { self.new ≡ take most (sort lower rows.entry) }
        ensures rising { Rising self.new }
    {
        for x in rows {
            self.insert(x, most);
        }
    }

    pub fn new() -> Self
        ensures { result ≡ [] }
    {
        Best {
            count: 0,
            items: [NOTHING; N],
        }
    }

    pub fn as_slice(&self) -> &[Candidate]
        ensures are { result.now ≡ self.now }
        ensures few { length self.now ≤ N }
        ensures rising { Rising self.now }
    {
        &self.items[..self.count]
    }

    // x goes behind those whose scores are not above its own. Where `most` are there already, the last one falls out, or x is not taken.
    pub fn insert(&mut self, x: Candidate, most: usize)
        requires scored { Amount x.score }
        requires room { (length self.old ≤ most) × (most ≤ N) }
        ensures are { self.new ≡ take most (insert lower x self.old) }
        ensures rising { Rising self.new }
    {
        if 0 < most {
            let stay = self.count.min(most - 1);
            let last = self.items[stay];
            if self.count < most || x.score < last.score {
                // No plainer by `partition_point` and `rotate_right`, which is a call of the C library's `memmove`.
                let mut place = stay;
                for j in (0..stay).rev() {
                    if !(x.score < self.items[j].score) {
                        break;
                    }
                    self.items[j + 1] = self.items[j];
                    place = j;
                }
                self.items[place] = x;
                self.count = stay + 1;
            }
        }
    }
}
