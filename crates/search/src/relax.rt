// One road, and all roads that leave a node.
// A search and its areas are two, here and in the turns, and `Ready` is of both: as one struct they prove, and miss the bar of speed, heavy sheets take 13 % longer. `Labelled` is of an entry's node and the areas, `SameRoom` of before and after: no type holds them.
ghost use Rattle.std.specs.Prelude.{◌≡◌, ◌<◌, IfOk};
ghost use Rattle.model.specs.Sheet.{road_at};
ghost use Rattle.model.specs.Search.{entered, relax, relax_all};
ghost use Rattle.sheet.specs.Contents.{contents};
ghost use Rattle.search.specs.Query.{query_at};
ghost use Rattle.search.specs.Areas.{label_as, state_at, CameByRoad, SameRoom, Labelled, Ready, Kept};
ghost use Rattle.search.specs.Answers.{entry_as, state_after};

use crate::HeapFull;
use crate::areas::{Entry, Label, SearchAreas};
use crate::costs::Search;
use model::Road;

// Node v gets the label, and an entry, if a slot is left; slots are not reused.
fn enter(
    search: &Search<'_>,
    areas: &mut SearchAreas<'_>,
    v: usize,
    label: Label,
) -> Result<(), HeapFull>
    requires ready { Ready search.now areas.old }
    requires inside { (v < areas.old.sheet.counts.n) × CameByRoad search.now.sheet.counts.e label.came_from }
    ensures same_room { SameRoom areas.old areas.new }
    ensures kept { IfOk result (λ u. Kept search.now areas.old areas.new) }
    ensures state { state_after result (state_at search.now.sheet areas.new)
        ≡ entered areas.old.slots (query_at search.now) (state_at search.now.sheet areas.old) v (label_as (road_at (contents search.now.sheet)) label) }
{
    let full = areas.slots <= areas.made;
    if full {
        return Err(HeapFull);
    }
    let f_score = label.penalised + search.heuristic(v);
    areas.put(v, label, f_score);
    Ok(())
}

// One road r out of the node of an entry that was taken out of the heap.
fn relax(
    search: &Search<'_>,
    areas: &mut SearchAreas<'_>,
    entry: Entry,
    r: Road,
) -> Result<(), HeapFull>
    requires ready { Ready search.now areas.old }
    requires labelled { Labelled areas.old entry.node }
    requires road { (r.target < areas.old.sheet.counts.n) × (r.number < search.now.sheet.counts.e) × (road_at (contents search.now.sheet) r.number ≡ r) }
    ensures same_room { SameRoom areas.old areas.new }
    ensures kept { IfOk result (λ u. Kept search.now areas.old areas.new) }
    ensures state { state_after result (state_at search.now.sheet areas.new)
        ≡ relax areas.old.slots (query_at search.now) (entry_as entry) (state_at search.now.sheet areas.old) r }
{
    let real = areas.real[entry.node];
    let there = areas.cost_there(r.target);
    let offer = search.offer(entry, real, r, there);
    match offer {
        None => Ok(()),
        Some(label) => enter(search, areas, r.target, label),
    }
}

// All roads that the search may use out of the entry's node, in list order.
pub fn relax_all(
    search: &Search<'_>,
    areas: &mut SearchAreas<'_>,
    entry: Entry,
) -> Result<(), HeapFull>
    requires ready { Ready search.now areas.old }
    requires labelled { Labelled areas.old entry.node }
    ensures same_room { SameRoom areas.old areas.new }
    ensures kept { IfOk result (λ u. Kept search.now areas.old areas.new) }
    ensures state { state_after result (state_at search.now.sheet areas.new)
        ≡ relax_all areas.old.slots (query_at search.now) (entry_as entry) ((query_at search.now).leaving entry.node) (state_at search.now.sheet areas.old) }
{
    let sheet = &search.sheet;
    let end = sheet.start(entry.node + 1);
    for i in sheet.start(entry.node)..end {
        let r = sheet.road(sheet.entry(i));
        if search.permits(r) {
            relax(search, areas, entry, r)?;
        }
    }
    Ok(())
}
