// The roads of a leg in the answer list, by their numbers.
ghost use Rattle.std.specs.Prelude.{◌≡◌, ℕ, List, ◌++◌, ◌+◌, ◌≤◌, ◌<◌, length, drop};
ghost use Rattle.model.specs.Lists.{head};
ghost use Rattle.search.specs.Traces.{traced_numbers};
ghost use Rattle.full_path.specs.Left.{terminal_numbers, numbers_of, middle_count, number_as, Appended};

use rules::{PathResult, TerminalEdge};
use search::route::Trace;

// How many roads a route has.
pub fn count_roads(r: &PathResult) -> usize
    requires { middle_count r.now + 2 ≤ usize.MAX }
    ensures many { (ks : List ℕ) → length ks ≡ middle_count r.now → result ≡ length (numbers_of r.now ks) }
    ensures few { result ≤ middle_count r.now + 2 }
{
    let between = r.middle.map_or(0, |m| m.count);
    usize::from(r.head.is_some()) + between + usize::from(r.tail.is_some())
}

// The number of a route's first road, if it has one.
// A route and its trace are two, here and below: no plainer as one, the route outlives the marks that are traced.
#[tactic(auto, using(crate::proofs::Writing::head_traced, crate::proofs::Writing::none_traced), unfolding(model::specs::Lists::head))]
fn first_number(r: &PathResult, middle: Option<Trace<'_>>) -> Option<u64>
    ensures { number_as result ≡ head (numbers_of r.now (traced_numbers middle.entry)) }
{
    if let Some(edge) = r.head {
        // Casts, here and below: Rust has no `From` between usize and u64.
        return Some(edge.road.number as u64);
    }
    if let Some(first) = middle.and_then(|trace| trace.first()) {
        return Some(first as u64);
    }
    r.tail.map(|edge| edge.road.number as u64)
}

// A terminal road that is kept, to the front of `out`: how many.
fn write_terminal(p: Option<TerminalEdge>, out: &mut [u64]) -> usize
    requires { 0 < length out.old }
    ensures { (result ≡ length (terminal_numbers p)) × (result ≤ 1) × (out.new ≡ terminal_numbers p ++ drop result out.old) }
{
    let Some(edge) = p else {
        return 0;
    };
    out[0] = edge.road.number as u64;
    1
}

// The roads between, to the front of `out`: how many.
// Room is asked for here and below: no plainer as one fact, each asks for its own number of places.
#[tactic(auto, using(crate::proofs::Writing::traced_size))]
fn write_middle(middle: Option<Trace<'_>>, out: &mut [u64]) -> usize
    requires { length (traced_numbers middle) ≤ length out.old }
    ensures { (result ≡ length (traced_numbers middle.entry)) × (out.new ≡ traced_numbers middle.entry ++ drop result out.old) }
{
    let Some(trace) = middle else {
        return 0;
    };
    trace.write(out);
    trace.count
}

// The roads of a route in travel order, to the front of `out`.
fn write_leg(r: &PathResult, middle: Option<Trace<'_>>, out: &mut [u64])
    requires { length (traced_numbers middle) + 2 ≤ length out.old }
    ensures { let ns = numbers_of r.now (traced_numbers middle.entry) in out.new ≡ ns ++ drop (length ns) out.old }
{
    let first = write_terminal(r.head, out);
    let between = write_middle(middle, &mut out[first..]);
    let last = first + between;
    write_terminal(r.tail, &mut out[last..]);
}

// The roads of a route behind the first n of `ids`; over the last of these where it is the route's first road, so that none stands twice. From which place on they stand.
// A count beside the slice, since memory is fixed: the roads go into the room behind.
pub fn append_leg(r: &PathResult, middle: Option<Trace<'_>>, n: usize, ids: &mut [u64]) -> usize
    requires { n + length (traced_numbers middle) + 2 ≤ length ids.old }
    ensures { Appended ids.old n (numbers_of r.now (traced_numbers middle.entry)) ids.new result }
{
    let last = ids[..n].last().copied();
    let first = first_number(r, middle);
    let twice = last.is_some() && last == first;
    let from = if twice { n - 1 } else { n };
    write_leg(r, middle, &mut ids[from..]);
    from
}
