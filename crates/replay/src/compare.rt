// Answers and lists against what a case expects.
ghost use Rattle.std.specs.Prelude.{◌≡◌, true, ℕ, ◌<◌, ◌≤◌, length, get_or};
ghost use Rattle.replay.specs.Agreeing.{behind, word_at, HasBits, ListsAgree};

use crate::call::{FLOAT, NUMBER};
use crate::expected::{Expected, Refusal};
use answers::{Answer, Match};
use fields::u64_at;

// Whether x has these bits. The bits of a NaN are unknown, so it never has.
fn has_bits(x: f64, bits: u64) -> bool
    ensures { result ≡ true → HasBits x bits }
{
    !x.is_nan() && x.to_bits() == bits
}

impl Expected<'_> {
    // Word k of the answer.
    fn word(&self, k: usize) -> u64
        requires { k < 7 }
    {
        u64_at(self.answer, 8 * k)
    }

    fn match_agrees(&self, m: Match) -> bool {
        m.count == self.roads
            && has_bits(m.length_m, self.word(0))
            && has_bits(m.start_offset, self.word(1))
            && has_bits(m.start_fraction, self.word(2))
            && has_bits(m.end_offset, self.word(3))
            && has_bits(m.end_fraction, self.word(4))
            && m.primary == self.word(5)
            && has_bits(m.coverage, self.word(6))
    }

    pub fn answer_agrees(&self, answer: Answer) -> bool {
        match (answer, self.refusal) {
            (Ok(m), None) => self.match_agrees(m),
            (Err(e), Some(refusal)) => {
                let (a, b) = e.places();
                let number = e.number();
                refusal == Refusal { number, a, b }
            }
            _ => false,
        }
    }

    // What a list holds at entry i: word 0 or 1 of road i, the id or the length, or `rest` behind the path.
    #[tactic(auto, unfolding(crate::specs::Agreeing::word_at))]
    fn word_at(&self, i: usize, word: usize, rest: u64) -> u64
        requires { word ≤ 1 }
        ensures { result ≡ word_at self.now i word rest }
    {
        if i < self.roads {
            u64_at(self.answer, 56 + 16 * i + 8 * word)
        } else {
            rest
        }
    }

    // What stands behind the path, or in lists that stay untouched.
    #[tactic(auto, unfolding(crate::specs::Agreeing::behind))]
    fn behind(&self, old: u64) -> u64
        ensures { result ≡ behind self.now old }
    {
        if self.untouched { old } else { 0 }
    }

    // Whether every entry of a list is its word, as `same` compares the two: an id as it is, a length by its bits.
    fn entries_agree<T: Copy, F: Fn(T, u64) -> bool>(
        &self,
        entries: &[T],
        word: usize,
        old: u64,
        same: F,
    ) -> bool
        requires { (word ≤ 1) × F.IsAlwaysCallable same }
        ensures { result ≡ true → (i : ℕ) (d : T) → i < length entries.now → F.post same (get_or entries.now i d) (word_at self.now i word (behind self.now old)) true }
    {
        let rest = self.behind(old);
        for (i, x) in entries.iter().enumerate() {
            if !same(*x, self.word_at(i, word, rest)) {
                return false;
            }
        }
        true
    }

    // Both lists, over their whole length. The path must lie within them.
    pub fn lists_agree(&self, ids: &[u64], lengths: &[f64]) -> bool
        ensures { result ≡ true → ListsAgree ids.now lengths.now self.now }
    {
        self.roads <= ids.len()
            && self.roads <= lengths.len()
            && self.entries_agree(ids, 0, NUMBER, |id, word| id == word)
            && self.entries_agree(lengths, 1, FLOAT.to_bits(), has_bits)
    }
}
