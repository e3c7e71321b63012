// The rows of a point that pass, one after the other, as candidates.
ghost use Rattle.std.specs.Prelude.{◌≡◌, ◌<◌, map};
ghost use Rattle.sheet.specs.Contents.{contents};
ghost use Rattle.candidates.specs.Found.{by_number, kept_at, Measured};

use crate::candidate;
use crate::candidate::Candidate;
use model::{Point, Settings};
use sheet::Sheet;
use std::marker::Model;
use std::ops::Range;

// What is left of a point's rows.
#[derive(Drop)]
pub struct Passing<'a> {
    sheet: Sheet<'a>,
    settings: Settings,
    point: Point,
    rows: Range<usize>,
}

// Clauses see the candidates that are left, in the order of their roads' numbers.
impl<'a> Model for Passing<'a> {
    ghost use Rattle.std.specs.Prelude.{◌≤◌, List};
    ghost use Rattle.candidates.specs.declared.candidate.Candidate as code;

    ghost Value = { List code.Candidate };

    ghost use Rattle.candidates.specs.Rows.{left};

    ghost view = { λ s. left s.sheet.bytes.now s.sheet.counts s.settings s.point s.rows.start s.rows.end };

    ghost invariant = { λ s. (s.point.frc ≤ 7) × (s.rows.end ≤ s.sheet.counts.m) };
}

impl<'a> Passing<'a> {
    // The rows of point i that pass, from the first on.
    pub fn new(sheet: &Sheet<'a>, i: usize) -> Self
        requires { i < sheet.now.counts.p }
        ensures { (result ≡ map by_number (kept_at (contents sheet.now) i)) × Measured result }
    {
        let first = sheet.first_row(i);
        Passing {
            sheet: *sheet,
            settings: sheet.settings(),
            point: sheet.point(i),
            rows: first..first + sheet.row_count(i),
        }
    }
}

impl Iterator for Passing<'_> {
    ghost use Rattle.std.specs.Iterator.{YieldsFirst, item_count};

    type Item = Candidate;

    ghost next_gives = { YieldsFirst (λ xs. xs) };

    ghost remaining = { item_count (λ xs. xs) };

    // In line, so that a loop computes only what it reads of a candidate.
    #[inline(always)]
    #[tactic(auto, using(crate::proofs::Reading::left_end, crate::proofs::Reading::left_none))]
    fn next(&mut self) -> Option<Candidate> {
        // No plainer as a `for`, which would take the range: what is left of it is the iterator's own state.
        while let Some(k) = self.rows.next() {
            let w = self.sheet.row(k);
            let r = self.sheet.road(w.road);
            if let Some(x) = candidate::kept(&self.settings, self.point, w, r) {
                return Some(x);
            }
        }
        None
    }
}
