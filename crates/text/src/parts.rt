// The parts of the text, written one behind the other into a lent buffer.
ghost use Rattle.std.specs.Prelude.{◌++◌, map};
ghost use Rattle.answers.specs.Room.{answer_of, match_of, lists};
ghost use Rattle.text.specs.Text.{ascii, spaced, road_lines, path_line, last_lines, refusal_line, text};
ghost use Rattle.text.specs.Buffer.{Put, part_of};
ghost use Rattle.model.specs.Refusals.{number_of, place_a, place_b};

use Part::{Bits, Decimal};
use answers::{Answer, Match};
use model::error::DecodeError;

// A number of a line, in decimal or by its bits.
#[derive(Clone, Copy)]
pub enum Part {
    Decimal(u64),
    Bits(f64),
}

// A lent buffer, and the place behind the text so far. Where the text outgrows the buffer its bytes are counted and lost.
#[derive(Drop)]
pub struct Writer<'a> {
    pub out: &'a mut [u8],
    pub at: usize,
}

impl Writer<'_> {
    // A word, if it fits.
    fn put(&mut self, word: &[u8])
        ensures { Put word.now self.old self.new }
    {
        let end = self.at.saturating_add(word.len());
        if end <= self.out.len() {
            self.out[self.at..end].copy_from_slice(word);
        }
        self.at = end;
    }

    // A space and a number, its digits in an array. By Display the proof does not close: nothing says that a write which has room succeeds.
    fn part(&mut self, part: Part)
        ensures { Put (ascii " " ++ part_of part) self.old self.new }
    {
        self.put(b" ");
        match part {
            Decimal(x) => {
                let mut digits = [0u8; 20];
                let n = io::decimal(x, &mut digits);
                self.put(&digits[..n]);
            }
            Bits(x) if x.is_nan() => self.put(b"not a number"),
            Bits(x) => {
                let mut digits = [0u8; 16];
                let n = io::hex(x.to_bits(), 16, &mut digits);
                self.put(&digits[..n]);
            }
        }
    }

    // A line: its name, the parts and a line feed.
    fn line(&mut self, name: &[u8], parts: &[Part])
        ensures { Put (name.now ++ spaced (map part_of parts.now)) self.old self.new }
    {
        self.put(name);
        for part in parts {
            self.part(*part);
        }
        self.put(b"\n");
    }

    // All lines after the roads.
    fn last(&mut self, m: Match)
        ensures { Put (last_lines (match_of m)) self.old self.new }
    {
        self.line(b"length", &[Bits(m.length_m)]);
        self.line(b"start", &[Bits(m.start_offset), Bits(m.start_fraction)]);
        self.line(b"end", &[Bits(m.end_offset), Bits(m.end_fraction)]);
        self.line(b"primary", &[Decimal(m.primary), Bits(m.coverage)]);
    }

    // A match: the count of its roads, the roads as far as both lists go, and the rest. A cast, here and below: Rust has no `From` between usize and u64.
    fn matched(&mut self, m: Match, ids: &[u64], lengths: &[f64])
        ensures { Put (path_line (match_of m) ++ road_lines m.count ids.now lengths.now ++ last_lines (match_of m)) self.old self.new }
    {
        self.line(b"path", &[Decimal(m.count as u64)]);
        for (id, metres) in ids.iter().zip(lengths).take(m.count) {
            self.line(b"road", &[Decimal(*id), Bits(*metres)]);
        }
        self.last(m);
    }

    // A refusal: number, A and B.
    #[tactic(auto, unfolding(crate::specs::Text::ascii, crate::specs::Text::line, crate::specs::Text::refusal_line))]
    fn refused(&mut self, e: DecodeError)
        ensures { Put (refusal_line (number_of e) (place_a e) (place_b e)) self.old self.new }
    {
        let number = e.number() as u64;
        let (a, b) = e.places();
        self.line(
            b"refused",
            &[Decimal(number), Decimal(a as u64), Decimal(b as u64)],
        );
    }

    // The whole text.
    #[tactic(auto, unfolding(crate::specs::Text::text, answers::specs::Room::answer_of))]
    pub fn answer(&mut self, answer: Answer, ids: &[u64], lengths: &[f64])
        ensures { Put (text (answer_of answer) (lists ids.now lengths.now)) self.old self.new }
    {
        match answer {
            Ok(m) => self.matched(m, ids, lengths),
            Err(e) => self.refused(e),
        }
    }
}
