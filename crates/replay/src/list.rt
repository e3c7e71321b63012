// The list of cases: u32 their number, a record for each, then the sheets and answers that the records point to. Little-endian.
ghost use Rattle.std.specs.Prelude.{◌≡◌, ◌+◌, ◌*◌, ◌≤◌, ◌<◌, length, IfOk};

use crate::call;
use crate::record::{Record, SIZE};
use fields::count_at;
use std::io;

// The cases that were run, and how many of them differ.
#[derive(Clone, Copy, Default)]
pub struct Tally {
    pub run: usize,
    pub differ: usize,
}

// A list whose records the file holds.
#[derive(Clone, Copy)]
pub struct Cases<'a> {
    file: &'a [u8],
    count: usize,
    ghost held: { 4 + 52 * count ≤ length file.now },
}

impl<'a> Cases<'a> {
    // None where the file does not hold the records of a list.
    pub fn of(file: &'a [u8]) -> Option<Self> {
        if file.len() < 4 {
            return None;
        }
        let count = count_at(file, 0);
        if file.len() - 4 < count * SIZE {
            return None;
        }
        Some(Cases { file, count })
    }

    // Whether the case with number i gives what it expects.
    fn agrees(&self, i: usize) -> bool
        requires { i < self.now.count }
    {
        call::agrees(&Record {
            file: self.file,
            at: 4 + SIZE * i,
        })
    }

    // Runs every case, and tells `differs` the number of each that differs.
    pub fn run<F: FnMut(usize) -> io::Result<()>>(&self, mut differs: F) -> io::Result<Tally>
        requires { F.IsAlwaysCallable differs }
        ensures { IfOk result (λ t. (t.run ≡ self.now.count) × (t.differ ≤ t.run)) }
    {
        let mut differ = 0;
        for i in 0..self.count {
            if !self.agrees(i) {
                differs(i)?;
                differ += 1;
            }
        }
        let run = self.count;
        Ok(Tally { run, differ })
    }
}
