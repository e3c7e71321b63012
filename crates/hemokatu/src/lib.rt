// The calls for hosts in C or Rust. Built by `rt lib` in the crate's folder.
#![tactic(auto)]

ghost use Rattle.std.specs.Prelude.{◌≡◌, length};
ghost use Rattle.model.specs.Judge.{judged};
ghost use Rattle.model.specs.Call.{decode};
ghost use Rattle.charge.specs.Roads.{charge};
ghost use Rattle.answers.specs.Room.{lists};
ghost use Rattle.decoder.specs.Opened.{lent};
ghost use Rattle.hemokatu.specs.Exported.{version, judgement_of, sizes_of, IsAnswered, AnsweredAs};

use answers::Answer;
use charge::{Charged, Tariff};

// 10000 major + 100 minor + patch: 0.2.0. The header and the crate in rust/ have the same.
const VERSION: u32 = 200;

// The version of the library.
#[unsafe(no_mangle)]
pub extern "C" fn hemokatu_version() -> u32
    ensures { result ≡ version }
{
    VERSION
}

// A refusal's number and its place A; both 0 for a well-formed sheet. Numbers, as the C interface has no Option or Result.
#[repr(C)]
#[derive(Clone, Copy, Default)]
pub struct Judgement {
    pub number: usize,
    pub place: usize,
}

// Refusals 1 to 5 of any byte sequence.
#[unsafe(no_mangle)]
pub extern "C" fn hemokatu_judge(sheet: &[u8]) -> Judgement
    ensures { result ≡ judgement_of (judged sheet.now) }
{
    match judge::judge(sheet) {
        Ok(_) => Judgement::default(),
        Err(e) => Judgement {
            number: e.number(),
            place: e.places().0,
        },
    }
}

// The least entries of each area for a sheet of some points and nodes: a node area, the heap, and the coverage area or an answer list. An entry has two places in `labels`, `entries` and `links`. A larger heap lets larger searches end.
#[repr(C)]
#[derive(Clone, Copy, Default)]
pub struct Sizes {
    pub node: usize,
    pub heap_least: usize,
    pub list: usize,
}

// What refusal 6 asks for; all 0, as the C interface has no Option, for counts above their limits, whose sheets are refused 2.
#[unsafe(no_mangle)]
pub extern "C" fn hemokatu_sizes(points: usize, nodes: usize) -> Sizes
    ensures { result ≡ sizes_of points nodes }
{
    if model::MOST_POINTS < points || model::MOST_NODES < nodes {
        return Sizes::default();
    }
    let list = answers::most_entries(points, nodes);
    Sizes {
        node: nodes,
        heap_least: 1,
        list,
    }
}

// All that a call answers, as the C interface needs it: number 0 is a match; a refusal has its number, A and B, and zeros elsewhere.
#[repr(C)]
#[derive(Clone, Copy, Default)]
pub struct Answered {
    pub number: usize,
    pub a: usize,
    pub b: usize,
    pub count: usize,
    pub length_m: f64,
    pub start_offset: f64,
    pub start_fraction: f64,
    pub end_offset: f64,
    pub end_fraction: f64,
    pub primary: u64,
    pub coverage: f64,
}

// The number of a match, for the C interface.
const MATCHED: usize = 0;

impl From<Answer> for Answered {
    ghost from_gives = { IsAnswered };

    #[tactic(auto, unfolding(answers::specs::Room::answer_of))]
    fn from(answer: Answer) -> Self {
        match answer {
            Ok(m) => Answered {
                number: MATCHED,
                a: 0,
                b: 0,
                count: m.count,
                length_m: m.length_m,
                start_offset: m.start_offset,
                start_fraction: m.start_fraction,
                end_offset: m.end_offset,
                end_fraction: m.end_fraction,
                primary: m.primary,
                coverage: m.coverage,
            },
            Err(e) => {
                let number = e.number();
                let (a, b) = e.places();
                Answered {
                    number,
                    a,
                    b,
                    ..Answered::default()
                }
            }
        }
    }
}

// One call, on any bytes and any areas: the answer, and both answer lists afterwards. What stands in the work areas before has no part in either; what stands there afterwards is the program's choice: their lengths stay, and no later call reads it before writing.
// The slices stand each for itself: the C interface needs it.
#[unsafe(no_mangle)]
pub extern "C" fn hemokatu_decode(
    sheet: &[u8],
    labels: &mut [f64],
    came_from: &mut [usize],
    entries: &mut [f64],
    links: &mut [usize],
    covered: &mut [usize],
    coverage: &mut [f64],
    ids: &mut [u64],
    lengths: &mut [f64],
) -> Answered
    ensures { AnsweredAs result ids.new lengths.new
        (decode sheet.now (lent record {
          labels = length labels.old;
          came_from = length came_from.old;
          entries = length entries.old;
          links = length links.old;
          covered = length covered.old;
          coverage = length coverage.old;
          lists = lists ids.old lengths.old;
        })) }
{
    let found = decoder::decode(
        sheet, labels, came_from, entries, links, covered, coverage, ids, lengths,
    );
    Answered::from(found)
}

// What a path costs at a tariff: the class and the length in metres of each road, in two lists that are only read.
#[unsafe(no_mangle)]
pub extern "C" fn hemokatu_charge(tariff: Tariff, classes: &[u8], lengths: &[f64]) -> Charged
    ensures { result ≡ charge tariff classes.now lengths.now }
{
    Charged::from(charge::charge(tariff, classes, lengths))
}
