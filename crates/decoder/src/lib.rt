// The whole call: one sheet of bytes and lent areas in, an answer and two answer lists out. Nothing is presumed of the caller.
#![tactic(auto)]

ghost use Rattle.std.specs.Prelude.{◌≡◌, ◌<◌, ◌≤◌, length};
ghost use Rattle.model.specs.View.{view};
ghost use Rattle.model.specs.Search.{bounded_astar};
ghost use Rattle.model.specs.Decode.{outcome};
ghost use Rattle.model.specs.Call.{answered, decode, most_entries};
ghost use Rattle.sheet.specs.Contents.{contents};
ghost use Rattle.answers.specs.Room.{lists, decoded};
ghost use Rattle.decoder.specs.Opened.{lent, Opens};

use answers::{Answer, Sizes};
use full_path::Coverages;
use model::error::DecodeError;
use search::areas::SearchAreas;
use sheet::Sheet;

// Refusals 1 to 6, of any bytes and sizes.
#[tactic(auto, using(crate::proofs::Opening::refused_early, crate::proofs::Opening::no_room, crate::proofs::Opening::opened))]
fn open_sheet(bytes: &[u8], a: Sizes) -> Result<Sheet<'_>, DecodeError>
    ensures { Opens bytes.now a result }
{
    let sheet = judge::judge(bytes)?;
    let has_room = answers::has_room(sheet.counts, a);
    if !has_room {
        return Err(DecodeError::NoRoom);
    }
    Ok(sheet)
}

// A well-formed sheet with room: its legs, then its answer and the answer lists.
fn decode_sheet(
    areas: &mut SearchAreas<'_>,
    coverages: &mut Coverages<'_>,
    ids: &mut [u64],
    lengths: &mut [f64],
) -> Answer
    requires room { let most = most_entries areas.old.sheet.counts.p areas.old.sheet.counts.n in (most ≤ length coverages.old.roads.now) × (most ≤ length coverages.old.metres.now) × (most ≤ length ids.old) × (most ≤ length lengths.old) }
    ensures { decoded result ids.new lengths.new
        ≡ answered (contents areas.old.sheet) (lists ids.old lengths.old) (outcome (view (contents areas.old.sheet)) (bounded_astar areas.old.slots)) }
{
    let sheet = areas.sheet;
    let found = location::decode_legs(areas, coverages, ids);
    let metres = &coverages.metres[..coverages.count];
    finalize::answer(&sheet, found, coverages.roads, metres, ids, lengths)
}

// One call, on any bytes and any areas. Refusals 1 to 6 leave both answer lists untouched; 7 to 11 zero them; a match zeroes the entries after the path. What stands in the work areas before has no part in the answer. What stands there afterwards is the program's choice: their lengths stay, and no later call reads it before writing.
// Nine slices and their sizes (the C interface): each area is lent by its own pointer and length, and judged by it before any struct is made.
#[tactic(auto, unfolding(crate::specs::Opened::Opens))]
pub fn decode(
    sheet: &[u8],
    labels: &mut [f64],
    came_from: &mut [usize],
    entries: &mut [f64],
    links: &mut [usize],
    covered: &mut [usize],
    coverage: &mut [f64],
    ids: &mut [u64],
    lengths: &mut [f64],
) -> Answer
    ensures { decoded result ids.new lengths.new
        ≡ decode sheet.now (lent record {
          labels = length labels.old;
          came_from = length came_from.old;
          entries = length entries.old;
          links = length links.old;
          covered = length covered.old;
          coverage = length coverage.old;
          lists = lists ids.old lengths.old;
        }) }
{
    let sizes = Sizes {
        node: (labels.len() / 2).min(came_from.len()),
        heap: (entries.len() / 2).min(links.len() / 2),
        coverage: covered.len().min(coverage.len()),
        ids: ids.len(),
        lengths: lengths.len(),
    };
    let sheet = open_sheet(sheet, sizes)?;
    let mut areas = SearchAreas::new(sheet, sizes.heap, labels, came_from, entries, links);
    let mut coverages = Coverages {
        roads: covered,
        metres: coverage,
        count: 0,
    };
    decode_sheet(&mut areas, &mut coverages, ids, lengths)
}
