// The rules on the available list and on the queue, each one a test: what stands in them is right, and past it stands nothing; nor
// does anything stand in a slot past the pool's own.
#![tactic(auto)]

ghost use Rattle.std.specs.Prelude.{◌≡◌, ◌||◌, length, get_or};
ghost use Rattle.definition.specs.Words.{◌<?◌};
ghost use Rattle.definition.specs.Pool.{slot_count, queue_length};
ghost use Rattle.slot_rules.specs.Tests.{every};
ghost use Rattle.list_rules.specs.Tests.{order_right, blank_from, queue_rises};

use definition::{QUEUE, SLOTS};
use slots::Waiters;

// ── the available list ──

// What is listed is a slot, is checked in, and was not met before.
pub fn order_right(available: &[u8; SLOTS], states: &[u8; SLOTS], n: usize) -> bool
    ensures { result ≡ order_right available.now states.now n }
{
    if SLOTS < n {
        return false;
    }
    let mut met = [false; SLOTS];
    for seat in &available[..n] {
        let e = usize::from(*seat);
        if SLOTS <= e || states[e] != 1 || met[e] {
            return false;
        }
        met[e] = true;
    }
    true
}

// ── what stands past the first n ──

// Whether each cell from n on is blank. With no return in the loop, so that several are looked at at once.
fn blank_from<T: Copy + PartialEq>(cells: &[T], n: usize, blank: T) -> bool
    ensures { result ≡ every (length cells.now) (λ i. i <? n || T.eq (get_or cells.now i blank) blank) }
{
    let from = n.min(cells.len());
    let mut ok = true;
    for x in &cells[from..] {
        ok &= *x == blank;
    }
    ok
}

pub fn order_blank_from(available: &[u8; SLOTS], n: usize) -> bool
    ensures { result ≡ blank_from slot_count n available.now }
{
    blank_from(available, n, 0)
}

// Of the slots past the maximum.
pub fn ids_blank_from(ids: &[u32; SLOTS], n: usize) -> bool
    ensures { result ≡ blank_from slot_count n ids.now }
{
    blank_from(ids, n, 0)
}

pub fn queue_blank_from(waiters: &Waiters, n: usize) -> bool
    ensures { result ≡ blank_from queue_length n waiters.now }
{
    blank_from(waiters, n, 0)
}

// ── the queue ──

// Request ids rise, the first above 0, none above the last.
pub fn queue_rises(waiters: &Waiters, n: usize, last: u32) -> bool
    ensures { result ≡ queue_rises waiters.now n last }
{
    if QUEUE < n {
        return false;
    }
    let top = u64::from(last);
    let mut ok = true;
    let mut before: u64 = 0;
    for w in &waiters[..n] {
        let id = *w / 4;
        ok &= (before < id) & (id <= top);
        before = id;
    }
    ok
}
