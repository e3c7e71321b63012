// The numbers and records of a sheet, read with no test at run time.
#![tactic(auto)]

pub mod distances;
pub mod layout;
pub mod numbers;
pub mod points;
pub mod roads;

ghost use Rattle.model.specs.Judge.{Sound, WellFormed};

use model::Counts;

// A sheet that refusals 1 to 4 let pass: its bytes, and the counts of its header.
#[derive(Clone, Copy)]
pub struct SoundSheet<'a> {
    pub bytes: &'a [u8],
    pub counts: Counts,
    ghost sound: { Sound bytes.now counts },
}

// A sheet that refusal 5 lets pass too. With a `SoundSheet` inside it would be no plainer: each clause would read counts and bytes through that.
#[derive(Clone, Copy)]
pub struct Sheet<'a> {
    pub bytes: &'a [u8],
    pub counts: Counts,
    ghost well_formed: { WellFormed bytes.now counts },
}
