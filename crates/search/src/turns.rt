// The turns of a search, each with one entry taken out of the heap.
ghost use Rattle.std.specs.Prelude.{◌≡◌, ℕ, length, true, Ok, IfOk};
ghost use Rattle.model.specs.Search.{visit, run};
ghost use Rattle.search.specs.Query.{query_at};
ghost use Rattle.search.specs.Areas.{labels_at, state_at, SameRoom, Labelled, Ready, Kept};
ghost use Rattle.search.specs.Answers.{entry_as, step_of, end_of_search};

use crate::HeapFull;
use crate::areas::{Entry, SearchAreas};
use crate::costs::Search;
use crate::relax::relax_all;

// Whether the entry, just taken out of the heap, stands at the goal; else its roads are tried. The goal is tested before the stale test.
#[tactic(auto, using(crate::proofs::Growth::same_nodes, crate::proofs::Visits::visit_found, crate::proofs::Visits::visit_old, crate::proofs::Visits::visit_on, crate::proofs::Visits::visit_full, crate::proofs::Visits::stopped))]
fn visit(search: &Search<'_>, areas: &mut SearchAreas<'_>, entry: Entry) -> Result<bool, HeapFull>
    requires ready { Ready search.now areas.old }
    requires labelled { Labelled areas.old entry.node }
    ensures same_room { SameRoom areas.old areas.new }
    ensures kept { IfOk result (λ arrived. Kept search.now areas.old areas.new) }
    ensures arrived { result ≡ Ok true → Labelled areas.new search.now.query.goal }
    ensures state { (steps : ℕ) → step_of steps (query_at search.now) result (state_at search.now.sheet areas.new)
        ≡ visit steps areas.old.slots (query_at search.now) (entry_as entry) (state_at search.now.sheet areas.old) }
{
    let kept = areas.penalised[entry.node];
    let arrived = entry.node == search.query.goal;
    if arrived {
        return Ok(true);
    }
    if kept < entry.g_score {
        return Ok(false);
    }
    relax_all(search, areas, entry)?;
    Ok(false)
}

// Takes entries out of the heap until the goal comes up, the heap is empty or a slot is missing; whether the goal has come up.
pub fn run_search(search: &Search<'_>, areas: &mut SearchAreas<'_>) -> Result<bool, HeapFull>
    requires { Ready search.now areas.old × (length areas.old.heap.items ≡ areas.old.made) }
    ensures same_room { SameRoom areas.old areas.new }
    ensures stands { IfOk result (λ arrived. Ready search.now areas.new) }
    ensures arrived { result ≡ Ok true → Labelled areas.new search.now.query.goal }
    ensures found { (steps : ℕ) → end_of_search steps (query_at search.now) result (labels_at search.now.sheet areas.new)
        ≡ run steps areas.old.slots areas.old.slots (query_at search.now) (state_at search.now.sheet areas.old) }
{
    while let Some(entry) = areas.pop() {
        let arrived = visit(search, areas, entry)?;
        if arrived {
            return Ok(true);
        }
    }
    // The heap is empty.
    Ok(false)
}
