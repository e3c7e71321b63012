// Rust's BinaryHeap on a lent slice of entry numbers, with the entries' keys in another, which is lent for each call, since keys are written between the calls. A lower key is greater.
// A hole is a place whose content does not count: the entry e goes there, or further on.
// Contracts of free functions speak of the front of a slice, `FrontBelow`: in the middle of a sift it is no heap yet, so it has no model. `Below` of `push` and `pop` is about the heap and the keys lent for a call, so it is no invariant of the heap.
#![tactic(auto)]

ghost use Rattle.std.specs.Prelude.{◌≡◌, [], ◌+◌, ◌-◌, ◌<◌, ◌≤◌, length, get_or, take, slice_get, IfSome};
ghost use Rattle.model.specs.Heap.{sift_up, child, sink, push, pop};
ghost use Rattle.heap.specs.Keys.{key_in, Below, FrontBelow, HeapOf};

use std::marker::Model;

// The heap is the first `len` numbers of `order`; what stands behind them has no part. A slice with a length, since it is lent: there is no heap memory.
#[derive(Drop)]
pub struct Heap<'a> {
    order: &'a mut [usize],
    len: usize,
}

impl<'a> Model for Heap<'a> {
    ghost Value = { HeapOf };

    ghost view = { λ h. record { items = take h.len h.order.now; room = length h.order.now } };

    ghost invariant = { λ h. h.len ≤ length h.order.now };
}

// From the hole at `hole` the entry e sifts up while it is greater than the parent.
fn sift_up(order: &mut [usize], key: &[f64], e: usize, hole: usize)
    requires hole_in_bounds { (hole < length order.old) × (e < length key.now) }
    requires below { FrontBelow order.old hole (length key.now) }
    ensures { order.new ≡ sift_up hole (key_in key.now) e order.old hole }
{
    let mut i = hole;
    // `while`, since no index is counted: the place is halved.
    while 0 < i {
        let parent = (i - 1) / 2;
        let p = order[parent];
        let stays = key[p] <= key[e];
        if stays {
            break;
        }
        order[i] = p;
        i = parent;
    }
    order[i] = e;
}

// The place of the greater of the children at `left` and left + 1: the right one if equal.
fn greater_child(order: &[usize], key: &[f64], left: usize) -> usize
    requires left_in_bounds { left + 1 < length order.now }
    requires children_below { (get_or order.now left 0 < length key.now) × (get_or order.now (left + 1) 0 < length key.now) }
    ensures { (result ≡ child (key_in key.now) order.now left) × (left ≤ result) × (result ≤ left + 1) }
{
    let right = left + 1;
    if key[order[right]] <= key[order[left]] {
        right
    } else {
        left
    }
}

// From the hole at the root, among the first `end` places, the greater child moves up until the hole is at the bottom; then e sifts up.
fn sift_down_to_bottom(order: &mut [usize], key: &[f64], e: usize, end: usize)
    requires end_in_bounds { (end < length order.old) × (e < length key.now) }
    requires below { FrontBelow order.old end (length key.now) }
    ensures { order.new ≡ sink end (key_in key.now) e end order.old 0 }
{
    let mut i = 0;
    let mut left = 1;
    // `while`, since no index is counted: the place is doubled.
    while left + 1 < end {
        let c = greater_child(order, key, left);
        order[i] = order[c];
        i = c;
        left = 2 * c + 1;
    }
    if left + 1 == end {
        order[i] = order[left];
        i = left;
    }
    sift_up(order, key, e, i);
}

// One entry more: e goes into the heap of the first `len` numbers. What was public stays public, so a slice with a count can still be pushed to and popped from.
pub fn push(order: &mut [usize], key: &[f64], len: usize, e: usize)
    requires len_in_bounds { (len < length order.old) × (e < length key.now) }
    requires below { FrontBelow order.old len (length key.now) }
    ensures { take (len + 1) order.new ≡ push (key_in key.now) (take len order.old) e }
{
    sift_up(order, key, e, len);
}

// Takes the greatest entry, which stands first, out of the heap of the first `len` numbers: the last one goes to the root and sinks.
pub fn pop(order: &mut [usize], key: &[f64], len: usize) -> usize
    requires len_nonzero { (0 < len) × (len ≤ length order.old) }
    requires below { FrontBelow order.old len (length key.now) }
    ensures { (result ≡ get_or order.old 0 0) × (take (len - 1) order.new ≡ pop (key_in key.now) (take len order.old)) }
{
    let top = order[0];
    let end = len - 1;
    let last = order[end];
    sift_down_to_bottom(order, key, last, end);
    top
}

impl<'a> Heap<'a> {
    // An empty heap, with room for as many entries as the slice has places.
    pub fn new(order: &'a mut [usize]) -> Heap<'a>
        ensures { result ≡ record { items = []; room = length order.old } }
    {
        Heap { order, len: 0 }
    }

    // No entry is left.
    pub fn clear(&mut self)
        ensures { self.new ≡ record self.old { items = [] } }
    {
        self.len = 0;
    }

    // One entry more.
    pub fn push(&mut self, key: &[f64], e: usize)
        requires room { length self.old.items < self.old.room }
        requires below { Below self.old.items (length key.now) × (e < length key.now) }
        ensures { self.new ≡ record self.old { items = push (key_in key.now) self.old.items e } }
    {
        push(self.order, key, self.len, e);
        self.len += 1;
    }

    // Takes the greatest entry, which stands first, out of the heap.
    pub fn pop(&mut self, key: &[f64]) -> Option<usize>
        requires { Below self.old.items (length key.now) }
        ensures top { result ≡ slice_get self.old.items 0 }
        ensures below { IfSome result (λ e. e < length key.now) }
        ensures left { self.new ≡ record self.old { items = pop (key_in key.now) self.old.items } }
    {
        if self.len == 0 {
            return None;
        }
        let top = pop(self.order, key, self.len);
        self.len -= 1;
        Some(top)
    }
}
