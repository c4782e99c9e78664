//! A queue of fixed room: items with their numbers, as an indexed heap in flat arrays.

ghost use Rattle.std.specs.Prelude.{◌≡◌, ◌+◌, ◌<◌, ◌≤◌, ◌-◌, ◌^◌, length, None, Some, IfOk, IfNone, IfSome, IsTrue, IsFalse, is_some, slice_set, replicate, slice_index};
ghost use Rattle.label_setting.specs.Queue.{queued, IsFirst, IsEmpty, lesser_of};
ghost use Rattle.label_setting.specs.Heap.{shown, IsQueue};

use crate::heap::{NO_PLACE, Slot, sift_down, sift_up};
use std::alloc::{AllocError, Global};
use std::marker::Model;

/// An item that was taken out of a queue, with its number.
#[derive(Clone, Copy, Debug, Drop, PartialEq, Eq)]
pub struct Taken {
    pub item: u32,
    pub number: u64,
}

/// Items below a number, each at most once, with their numbers.
///
/// A contract sees the list of all items' numbers, `None` for one that is not in the queue.
#[derive(Drop)]
pub struct Queue {
    heap: Vec<Slot>,
    places: Vec<u32>,
    count: u32,
}

impl Model for Queue {
    ghost use Rattle.std.specs.Prelude.{ℕ, List, Option};
    ghost use Rattle.label_setting.specs.Heap.{shown, IsQueue};

    ghost Value = { List (Option ℕ) };

    ghost view = { λ q. shown q.heap.items q.places.items q.count };

    ghost invariant = { λ q. IsQueue (shown q.heap.items q.places.items q.count) q.heap.items q.places.items q.count };
}

impl Queue {
    /// An empty queue with room for each of the items below `room`.
    ///
    /// # Refusals
    ///
    /// `AllocError` where there is no memory.
    pub fn new(alloc: Global, room: u32) -> Result<Queue, AllocError>
        ensures value { IfOk result (λ queue. queue ≡ replicate room None) }
    {
        let n = room as usize;
        let heap = vec![in alloc; Slot { number: 0, item: 0 }; n]?;
        let places = vec![in alloc; NO_PLACE; n]?;
        Ok(Queue {
            heap,
            places,
            count: 0,
        })
    }

    /// The number of an item, None where it is not in the queue.
    pub fn number(&self, item: u32) -> Option<u64>
        requires there { item < length self.now }
        ensures value { result ≡ queued self.now item }
    {
        let place = self.places[item as usize];
        if place < self.count {
            return Some(self.heap[place as usize].number);
        }
        None
    }

    /// Sets the number of an item, whether it is in the queue or not.
    pub fn put(&mut self, item: u32, number: u64)
        requires there { item < length self.old }
        ensures value { self.new ≡ slice_set self.old item (Some number) }
    {
        self.count = put_in(&mut self.heap, &mut self.places, self.count, item, number);
    }

    /// Lowers the number of an item to `bound` where it is higher, or puts it in with `bound`.
    pub fn lower(&mut self, item: u32, bound: u64)
        requires there { item < length self.old }
        ensures value { self.new ≡ slice_set self.old item (Some (lesser_of (queued self.old item) bound)) }
    {
        match self.number(item) {
            Some(number) if number <= bound => {}
            _ => self.put(item, bound),
        }
    }

    /// Takes out the item of least number, the lowest where several have it, and gives None where
    /// the queue is empty.
    pub fn take(&mut self) -> Option<Taken>
        ensures empty { IfNone result (IsEmpty self.old) }
        ensures unchanged { IfNone result (self.new ≡ self.old) }
        ensures first { IfSome result (λ taken. IsFirst self.old taken) }
        ensures removed { IfSome result (λ taken. self.new ≡ slice_set self.old taken.item None) }
    {
        if self.count == 0 {
            return None;
        }
        let taken = take_from(&mut self.heap, &mut self.places, self.count);
        self.count -= 1;
        Some(taken)
    }
}

// Puts an item in, or changes its number, and answers how many are in.
fn put_in(heap: &mut [Slot], places: &mut [u32], count: u32, item: u32, number: u64) -> u32
    requires queue { IsQueue (shown heap.old places.old count) heap.old places.old count }
    requires item { item < length places.old }
    ensures queue { IsQueue (shown heap.new places.new result) heap.new places.new result }
    ensures numbers { shown heap.new places.new result ≡ slice_set (shown heap.old places.old count) item (Some number) }
{
    if places[item as usize] < count {
        change(heap, places, count, item, number);
        return count;
    }
    add(heap, places, count, item, number);
    count + 1
}

// Changes the number of an item.
fn change(heap: &mut [Slot], places: &mut [u32], count: u32, item: u32, number: u64)
    requires queue { IsQueue (shown heap.old places.old count) heap.old places.old count }
    requires item { item < length places.old }
    requires inside { slice_index places.old item < count }
    ensures queue { IsQueue (shown heap.new places.new count) heap.new places.new count }
    ensures numbers { shown heap.new places.new count ≡ slice_set (shown heap.old places.old count) item (Some number) }
{
    let at = places[item as usize] as usize;
    let before = heap[at].number;
    heap[at] = Slot { number, item };
    if number <= before {
        sift_up(heap, places, count as usize, at);
        return;
    }
    sift_down(heap, places, count as usize, at);
}

// Puts in an item that is not in.
fn add(heap: &mut [Slot], places: &mut [u32], count: u32, item: u32, number: u64)
    requires queue { IsQueue (shown heap.old places.old count) heap.old places.old count }
    requires item { item < length places.old }
    requires outside { count ≤ slice_index places.old item }
    ensures queue { IsQueue (shown heap.new places.new (count + 1)) heap.new places.new (count + 1) }
    ensures numbers { shown heap.new places.new (count + 1) ≡ slice_set (shown heap.old places.old count) item (Some number) }
    ensures room { count < 2 ^ 32 - 1 }
{
    let end = count as usize;
    heap[end] = Slot { number, item };
    places[item as usize] = count;
    sift_up(heap, places, end + 1, end);
}

// Takes out the first of some.
fn take_from(heap: &mut [Slot], places: &mut [u32], count: u32) -> Taken
    requires queue { IsQueue (shown heap.old places.old count) heap.old places.old count }
    requires some { 0 < count }
    ensures queue { IsQueue (shown heap.new places.new (count - 1)) heap.new places.new (count - 1) }
    ensures numbers { shown heap.new places.new (count - 1) ≡ slice_set (shown heap.old places.old count) result.item None }
    ensures first { IsFirst (shown heap.old places.old count) result }
{
    let end = count as usize - 1;
    let first = heap[0];
    let last = heap[end];
    heap[0] = last;
    places[last.item as usize] = 0;
    places[first.item as usize] = NO_PLACE;
    let taken = Taken {
        item: first.item,
        number: first.number,
    };
    if end == 0 {
        return taken;
    }
    sift_down(heap, places, end, 0);
    taken
}

#[cfg(test)]
mod tests;
