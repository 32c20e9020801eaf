// What the pool's columns need: finding, shifting, and putting a slot. Only the contract of put_slot knows what a pool is.
#![tactic(auto)]

ghost use Rattle.std.specs.Prelude.{◌≡◌, [], ◌∷◌, ◌++◌, ◌≤◌, ◌<◌, drop, length};
ghost use Rattle.definition.specs.Pool.{slot_count, queue_length};
ghost use Rattle.slots.specs.Order.{place_of, slot_holding, vacant_slot, shifted};
ghost use Rattle.slots.specs.View.{slot, Puts};

use definition::SLOTS;
use slots::{ConnectionPoolWorker, Waiters};

// The slot that holds the id, or the count of slots. No Option, as no caller has one to give back: the contract is the slot by which
// the steps go on (`slot_holding`, slots/specs/Order).
pub fn find(ids: &[u32; SLOTS], id: u32) -> usize
    ensures { result ≡ slot_holding id ids.now }
{
    ids.iter().position(|x| *x == id).unwrap_or(SLOTS)
}

// A slot that is free, whose id is 0, or the count of slots.
pub fn find_vacant(ids: &[u32; SLOTS]) -> usize
    ensures { result ≡ vacant_slot ids.now }
{
    find(ids, 0)
}

// The first of the front n waiters with the request id, or n. A waiter is four times its id, and its marks.
pub fn find_waiter(waiters: &Waiters, n: usize, id: u32) -> usize
    requires { n ≤ queue_length }
    ensures { result ≡ place_of id n waiters.now }
{
    let wanted = u64::from(id);
    waiters[..n]
        .iter()
        .position(|w| *w / 4 == wanted)
        .unwrap_or(n)
}

// The front cell leaves, the others move up, and the blank stands last.
fn shift<T: Copy>(cells: &mut [T], blank: T)
    requires { 0 < length cells.old }
    ensures { cells.new ≡ drop 1 cells.old ++ (blank ∷ []) }
{
    let last = cells.len() - 1;
    cells.copy_within(1.., 0);
    cells[last] = blank;
}

// Of the available list: the front leaves, the others of the n move up, and a 0 stands last of the n.
pub fn shift_order(available: &mut [u8; SLOTS], n: usize)
    requires { (0 < n) × (n ≤ slot_count) }
    ensures { available.new ≡ shifted n available.old }
{
    shift(&mut available[..n], 0);
}

// The front waiter leaves, the others of the n move up, and a 0 stands last of the n.
pub fn shift_waiters(waiters: &mut Waiters, n: usize)
    requires { (0 < n) × (n ≤ queue_length) }
    ensures { waiters.new ≡ shifted n waiters.old }
{
    shift(&mut waiters[..n], 0);
}

// Slot i gets an id and what it holds, in every column: the acts that fill or empty a slot do it by this alone.
pub fn put_slot(
    worker: &mut ConnectionPoolWorker,
    i: usize,
    id: u32,
    generation: u32,
    time: u64,
    state: u8,
)
    requires { i < slot_count }
    ensures { Puts i id (slot generation time state) worker.old worker.new }
{
    worker.ids[i] = id;
    worker.generations[i] = generation;
    worker.times[i] = time;
    worker.states[i] = state;
}
