// The rules on slots, each one a test: ids below the next and distinct, slots that fit, counts that are right.
#![tactic(auto)]

ghost use Rattle.std.specs.Prelude.{◌≡◌, Bool, ◌&&◌, not, ℕ, ◌≤◌, ◌<◌};
ghost use Rattle.definition.specs.Pool.{slot_count};
ghost use Rattle.definition.specs.Words.{◌=?◌};
ghost use Rattle.slots.specs.View.{slot};
ghost use Rattle.refinement.specs.Agree.{Class};
ghost use Rattle.slot_rules.specs.Tests.{every, among, slot_fits, ids_below, ids_distinct, slots_fit, slots_dated, how_many, counts_right};

use definition::SLOTS;
use slots::ConnectionPoolWorker;

// ── over the slots ──

// Whether each slot passes the test, by its index, since its cells stand in several columns. With no early end, so that several are
// looked at at once.
fn every<F: Fn(usize) -> bool>(test: F) -> bool
    requires { (i : ℕ) → i < slot_count → F.pre test i }
    ensures { (t : ℕ → Bool) → ((i : ℕ) (b : Bool) → i < slot_count → F.post test i b → b ≡ t i) → result ≡ every slot_count t }
{
    let mut ok = true;
    for i in 0..SLOTS {
        ok &= test(i);
    }
    ok
}

// How many slots are in a state that passes the test. No more than a u8 holds, so that many are counted at once.
fn how_many<F: Fn(u8) -> bool>(states: &[u8; SLOTS], test: F) -> u8
    requires { F.IsAlwaysCallable test }
    ensures { (t : Class) → ((k : ℕ) (b : Bool) → F.post test k b → b ≡ t k) → result ≡ how_many t states.now }
{
    let mut n: u8 = 0;
    for state in states {
        n += u8::from(test(*state));
    }
    n
}

// ── the rules ──

pub fn ids_below(ids: &[u32; SLOTS], next: u32) -> bool
    ensures { result ≡ ids_below ids.now next }
{
    every(|i| ids[i] < next)
}

// Whether the id x stands among the first n, where a mark says that it may.
fn clashes(ids: &[u32; SLOTS], n: usize, x: u32, mark: bool) -> bool
    requires { n ≤ slot_count }
    ensures { result ≡ mark && (not (x =? 0) && among x n ids.now) }
{
    mark && x != 0 && ids[..n].contains(&x)
}

// Four marks for each slot: two ids seldom meet at one.
const MARKS: usize = 4 * SLOTS;

const REMAINDERS: u32 = MARKS as u32;

// A mark for each remainder: only where one is met again are the ids before looked through.
pub fn ids_distinct(ids: &[u32; SLOTS]) -> bool
    ensures { result ≡ ids_distinct ids.now }
{
    let mut marks = [false; MARKS];
    for (i, x) in ids.iter().enumerate() {
        let h = (*x % REMAINDERS) as usize;
        if clashes(ids, i, *x, marks[h]) {
            return false;
        }
        marks[h] = true;
    }
    true
}

// A slot without an id is vacant, a slot with one is not.
fn slot_fits(id: u32, generation: u32, time: u64, state: u8) -> bool
    ensures { result ≡ slot_fits id (slot generation time state) }
{
    if id == 0 {
        (state == 0) & (generation == 0) & (time == 0)
    } else {
        (1 <= state) & (state <= 6)
    }
}

pub fn slots_fit(worker: &ConnectionPoolWorker) -> bool
    ensures { result ≡ slots_fit worker.now.ids worker.now.generations worker.now.times worker.now.states }
{
    every(|i| {
        slot_fits(
            worker.ids[i],
            worker.generations[i],
            worker.times[i],
            worker.states[i],
        )
    })
}

// No slot is of a later generation than the pool, or of a later time. A vacant one is of 0.
pub fn slots_dated(
    generations: &[u32; SLOTS],
    times: &[u64; SLOTS],
    generation: u32,
    time: u64,
) -> bool
    ensures { result ≡ slots_dated generations.now times.now generation time }
{
    every(|i| (generations[i] <= generation) & (times[i] <= time))
}

pub fn counts_right(states: &[u8; SLOTS], total: u32, pending: u32, available: usize) -> bool
    ensures { result ≡ counts_right states.now total pending available }
{
    let taken = how_many(states, |k| k != 0);
    let waits = how_many(states, |k| (5 <= k) & (k <= 6));
    let shelved = how_many(states, |k| k == 1);
    (u32::from(taken) == total)
        & (u32::from(waits) == pending)
        & (usize::from(shelved) == available)
}
