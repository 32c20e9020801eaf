// A pool value's slots taken apart into the columns that the engine works on, and put together again.
#![tactic(auto)]

ghost use Rattle.std.specs.Prelude.{◌≡◌};
ghost use Rattle.slots.specs.View.{pool_in};
ghost use Rattle.columns.specs.View.{slot_of, worker_of, pool_from};

use definition::{ConnectionState, SLOTS};
use pool::{Pool, Slot};
use slots::ConnectionPoolWorker;

// ── Taken apart ──

pub fn worker_of(pool: &Pool) -> ConnectionPoolWorker
    ensures { result ≡ worker_of pool.now }
{
    // Read, so that its type says how many slots there are.
    let _slot = pool.slots[0];
    let mut ids = [0; SLOTS];
    let mut generations = [0; SLOTS];
    let mut times = [0; SLOTS];
    let mut states = [0; SLOTS];
    for (i, slot) in pool.slots.iter().enumerate() {
        ids[i] = slot.id;
        generations[i] = slot.generation;
        times[i] = slot.time;
        states[i] = u8::from(slot.state);
    }
    ConnectionPoolWorker {
        head: pool.head,
        ids,
        generations,
        times,
        states,
        available: pool.available,
        waiters: pool.waiters,
    }
}

// ── Put together ──

fn slot_of(id: u32, generation: u32, time: u64, code: u8) -> Slot
    ensures { result ≡ slot_of id generation time code }
{
    Slot {
        id,
        generation,
        time,
        state: ConnectionState::from(code),
    }
}

pub fn pool_of(worker: &ConnectionPoolWorker) -> Pool
    ensures { result ≡ pool_from (pool_in worker.now) }
{
    let mut slots = [slot_of(0, 0, 0, 0); SLOTS];
    for (i, slot) in slots.iter_mut().enumerate() {
        *slot = slot_of(
            worker.ids[i],
            worker.generations[i],
            worker.times[i],
            worker.states[i],
        );
    }
    Pool {
        head: worker.head,
        slots,
        available: worker.available,
        waiters: worker.waiters,
    }
}
