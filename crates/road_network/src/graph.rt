// Nodes that give no choice, and the ways on and back that they force.
ghost use Rattle.std.specs.Prelude.{◌≡◌, true, false, Bool, ◌<◌};
ghost use Rattle.sheet.specs.Contents.{contents};
ghost use Rattle.model.specs.Ends.{is_valid_node, way_on, way_back, way};
ghost use Rattle.road_network.specs.Graph.{roads_read, is_fork, Forces, first_node, first_way};
ghost use Rattle.road_network.specs.Neighbours.{inward, one_more, new_neighbour, meet_node, meets_road, Few, is_through};

use model::Neighbour;
use sheet::Sheet;

// The neighbours of a node that are met so far, where none is a choice.
#[derive(Clone, Copy)]
enum Neighbours {
    Nobody,
    One(Neighbour),
    Two(Neighbour, Neighbour),
}

// Whether a node's road comes in from the neighbour or goes out to it.
#[derive(Clone, Copy)]
enum Side {
    In,
    Out,
}

// Whether a node is valid, and how many roads the test read: both are told of every node.
// The number is told beside the flag, since a promise needs it: `roads_read`.
#[derive(Clone, Copy)]
pub struct Tested {
    pub valid: bool,
    pub read: usize,
}

// A neighbour at its first road.
#[tactic(auto, unfolding(model::specs::Ends::grown))]
fn new_neighbour(v: usize, side: Side) -> Neighbour
    ensures { result ≡ new_neighbour v (inward side) }
{
    match side {
        Side::In => Neighbour {
            node: v,
            ins: 1,
            outs: 0,
        },
        Side::Out => Neighbour {
            node: v,
            ins: 0,
            outs: 1,
        },
    }
}

// The neighbour with one road more, unless it is the second on that side.
#[tactic(auto, unfolding(crate::specs::Neighbours::one_more, crate::specs::Neighbours::is_second, model::specs::Ends::grown))]
fn one_more(a: Neighbour, side: Side) -> Option<Neighbour>
    ensures { result ≡ one_more (inward side) a }
{
    match side {
        Side::In if a.ins == 0 => Some(Neighbour { ins: 1, ..a }),
        Side::Out if a.outs == 0 => Some(Neighbour { outs: 1, ..a }),
        _ => None,
    }
}

// One road more, in from v or out to it, unless that is a choice.
#[tactic(auto, unfolding(crate::specs::Neighbours::meet_node))]
fn meet_node(known: Neighbours, v: usize, side: Side) -> Option<Neighbours>
    ensures { result ≡ meet_node known v (inward side) }
{
    let met = match known {
        Neighbours::Nobody => Neighbours::One(new_neighbour(v, side)),
        Neighbours::One(a) if a.node == v => Neighbours::One(one_more(a, side)?),
        Neighbours::One(a) => Neighbours::Two(a, new_neighbour(v, side)),
        Neighbours::Two(a, b) if a.node == v => Neighbours::Two(one_more(a, side)?, b),
        Neighbours::Two(a, b) if b.node == v => Neighbours::Two(a, one_more(b, side)?),
        Neighbours::Two(_, _) => return None, // a third neighbour
    };
    Some(met)
}

// One road more, from source to target, seen from node v, unless it is a choice.
#[tactic(auto, unfolding(crate::specs::Neighbours::meets_road))]
fn meet_road(v: usize, known: Neighbours, source: usize, target: usize) -> Option<Neighbours>
    ensures { result ≡ meets_road v known source target }
{
    match (source == v, target == v) {
        (true, true) => None, // a self-loop
        (false, true) => meet_node(known, source, Side::In),
        (true, false) => meet_node(known, target, Side::Out),
        (false, false) => Some(known),
    }
}

// Whether the neighbours are those of a way through: two, and as many roads in as out.
#[tactic(auto, unfolding(crate::specs::Neighbours::is_through))]
fn is_through(known: Neighbours) -> bool
    requires { Few known }
    ensures { result ≡ is_through known }
{
    matches!(known, Neighbours::Two(a, b) if a.ins + b.ins == a.outs + b.outs)
}

// Whether node v is valid, by one walk over the roads by rising number. A self-loop, a third neighbour or a second road one way to a neighbour ends it.
pub fn test_node(sheet: &Sheet<'_>, v: usize) -> Tested
    ensures { (result.valid ≡ is_valid_node (contents sheet.now) v) × (result.read ≡ roads_read (contents sheet.now) v) }
{
    let e = sheet.counts.e;
    let mut known = Neighbours::Nobody;
    for i in 0..e {
        let source = sheet.source(i);
        let target = sheet.target(i);
        let Some(met) = meet_road(v, known, source, target) else {
            return Tested {
                valid: true,
                read: i + 1,
            };
        };
        known = met;
    }
    Tested {
        valid: !is_through(known),
        read: e,
    }
}

// Whether more than two roads leave node v. Such a node is valid: a way through has at most two.
#[tactic(auto, using(crate::proofs::Forks::fork_is, sheet::proofs::Parts::starts_rise))]
pub fn is_fork(sheet: &Sheet<'_>, v: usize) -> bool
    requires { v < sheet.now.counts.n }
    ensures { result ≡ is_fork (contents sheet.now) v }
{
    let from = sheet.start(v);
    let end = sheet.start(v + 1);
    2 < end - from
}

// Whether node v is more than a place on the way through: a junction, an end, a merge or a split. A fork needs no walk over the roads.
#[tactic(auto, using(crate::proofs::Forks::fork_valid))]
pub fn is_valid_node(sheet: &Sheet<'_>, v: usize) -> bool
    requires { v < sheet.now.counts.n }
    ensures { result ≡ is_valid_node (contents sheet.now) v }
{
    is_fork(sheet, v) || test_node(sheet, v).valid
}

// The way on from the end of road r that is no U-turn, whatever choice the node gives.
pub fn way_on(sheet: &Sheet<'_>, r: usize) -> Option<usize>
    requires { r < sheet.now.counts.e }
    ensures { Forces (way_on (contents sheet.now) r) sheet.now.counts.e result }
{
    let v = sheet.target(r);
    let from = sheet.source(r);
    (sheet.start(v)..sheet.start(v + 1))
        .map(|j| sheet.entry(j))
        .find(|&x| sheet.target(x) != from)
}

// The way into the start of road r that is no U-turn, whatever choice the node gives.
pub fn way_back(sheet: &Sheet<'_>, r: usize) -> Option<usize>
    requires { r < sheet.now.counts.e }
    ensures { Forces (way_back (contents sheet.now) r) sheet.now.counts.e result }
{
    let v = sheet.source(r);
    let to = sheet.target(r);
    (0..sheet.counts.e).find(|&x| sheet.target(x) == v && sheet.source(x) != to)
}

// A direction along the roads.
pub trait Direction {
    ghost forward: { Bool };

    // The node at that end of road r.
    fn node(sheet: &Sheet<'_>, r: usize) -> usize
        requires { r < sheet.now.counts.e }
        ensures { (result ≡ first_node (contents sheet.now) forward r) × (result < sheet.now.counts.n) };

    // The way from there that is no U-turn, whatever choice the node gives.
    fn way(sheet: &Sheet<'_>, r: usize) -> Option<usize>
        requires { r < sheet.now.counts.e }
        ensures { Forces (first_way (contents sheet.now) forward r) sheet.now.counts.e result };

    // That way, where the node gives no choice.
    #[tactic(auto, using(crate::proofs::Ways::way_is))]
    final fn forced(sheet: &Sheet<'_>, r: usize) -> Option<usize>
        requires { r < sheet.now.counts.e }
        ensures { Forces (way (contents sheet.now) forward r) sheet.now.counts.e result }
    {
        if is_valid_node(sheet, Self::node(sheet, r)) {
            return None;
        }
        Self::way(sheet, r)
    }
}

// On from a road's end: what it forces is its forced_continuation.
pub struct Forward;

impl Direction for Forward {
    ghost forward = { true };

    fn node(sheet: &Sheet<'_>, r: usize) -> usize {
        sheet.target(r)
    }

    fn way(sheet: &Sheet<'_>, r: usize) -> Option<usize> {
        way_on(sheet, r)
    }
}

// Back from a road's start: what it forces is its forced_predecessor.
pub struct Backward;

impl Direction for Backward {
    ghost forward = { false };

    fn node(sheet: &Sheet<'_>, r: usize) -> usize {
        sheet.source(r)
    }

    fn way(sheet: &Sheet<'_>, r: usize) -> Option<usize> {
        way_back(sheet, r)
    }
}
