// A case's record, 52 bytes: u32 place and length of the sheet, place of the answer, roads of the path, number of the refusal (0: a match), A, B;
// u16 entries of eleven areas, in the order of the call, each half of an area of two halves for itself; u16 1 where the lists stay untouched, 0 where zeros stand behind the path.
// The answer of a match: length, offset and fraction at the start, offset and fraction at the end, u64 id of the primary road, its coverage; then u64 id and length of each road. An f64 is stored by its bits.
ghost use Rattle.std.specs.Prelude.{◌+◌, ◌*◌, ◌<◌, ◌≤◌, length};

use crate::expected::{Expected, Refusal};
use fields::{count_at, u16_at};

// The bytes of a record.
pub const SIZE: usize = 52;

// The most entries that a case lends of an area.
pub const MOST: usize = 1024;

// The record that begins at `at`. A file with a place, here and in list.rt (no plainer as a slice of its own): the records point into the file.
#[derive(Clone, Copy)]
pub struct Record<'a> {
    pub file: &'a [u8],
    pub at: usize,
    ghost inside: { at + 52 ≤ length file.now },
}

impl<'a> Record<'a> {
    // The sheet; none where it ends behind the file.
    pub fn sheet(&self) -> Option<&'a [u8]> {
        let start = count_at(self.file, self.at);
        let end = start + count_at(self.file, self.at + 4);
        self.file.get(start..end)
    }

    // What the call must answer; none where the answer ends behind the file, or the mark of untouched lists is no mark.
    pub fn expected(&self) -> Option<Expected<'a>> {
        let place = count_at(self.file, self.at + 8);
        let roads = count_at(self.file, self.at + 12);
        let answer = self.file.get(place..place + 56 + 16 * roads)?;
        let untouched = match u16_at(self.file, self.at + 50) {
            0 => false,
            1 => true,
            _ => return None,
        };
        Some(Expected {
            answer,
            roads,
            refusal: self.refusal(),
            untouched,
        })
    }

    // The refusal that is expected; none where it is a match.
    fn refusal(&self) -> Option<Refusal> {
        let number = count_at(self.file, self.at + 16);
        if number == 0 {
            return None;
        }
        let a = count_at(self.file, self.at + 20);
        let b = count_at(self.file, self.at + 24);
        Some(Refusal { number, a, b })
    }

    // The entries of area k. By its place, as the file has them.
    fn entries(&self, k: usize) -> usize
        requires { k < 11 }
    {
        usize::from(u16_at(self.file, self.at + 28 + 2 * k))
    }

    // At most MOST of them.
    pub fn size(&self, k: usize) -> usize
        requires { k < 11 }
        ensures { result ≤ 1024 }
    {
        self.entries(k).min(MOST)
    }

    // The places of an area whose halves are the areas k and k + 1: twice the lesser of their entries.
    pub fn halves(&self, k: usize) -> usize
        requires { k + 1 < 11 }
        ensures { result ≤ 2048 }
    {
        2 * self.size(k).min(self.size(k + 1))
    }

    // Whether every area has at most MOST entries.
    pub fn sizes_fit(&self) -> bool {
        (0..11).all(|k| self.entries(k) <= MOST)
    }
}
