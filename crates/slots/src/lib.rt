// The pool on fixed slots: what its head holds, and what is said of an event. The steps stand in specs/, as the code takes them.
#![tactic(auto)]

use definition::{Options, PoolState, QUEUE, Refusal, SLOTS};

#[derive(Clone, Copy)]
pub struct Status {
    pub state: PoolState,
    pub generation: u32,
}

// Front to back: four times the request's id, and 1 if it warms the pool, 2 if it was abandoned.
pub type Waiters = [u64; QUEUE];

// What a pool holds beside its columns.
#[derive(Clone, Copy)]
pub struct Head {
    pub options: Options,
    pub status: Status,
    pub next_connection_id: u32,
    pub clock: u64,
    pub last_request: u32,
    pub serial: u32,
    pub total_connection_count: u32,
    pub pending_connection_count: u32,
    // Beside their arrays: what a host holds of a pool, and its structure rules speak of, has no heap.
    pub available_count: usize,
    pub waiting_count: usize,
}

// The pool as the engine works on it: its head, its slots in columns, and its queue. One array of slots was slower: the structure test
// and the search for an id take several cells of a column at once (docs/DECISIONS.md, 13 and 14).
#[derive(Clone, Copy)]
pub struct ConnectionPoolWorker {
    pub head: Head,
    pub ids: [u32; SLOTS],
    pub generations: [u32; SLOTS],
    // When each slot's connection became available, or was last named.
    pub times: [u64; SLOTS],
    pub states: [u8; SLOTS],
    // The available slots, front to back.
    pub available: [u8; SLOTS],
    pub waiters: Waiters,
}

// What the tests say of an event: the slot or the waiter that it names, or a refusal.
pub type Verdict = Result<usize, Refusal>;

// The answer to a call: how many records were written, or a refusal.
pub type Outcome = Result<u32, Refusal>;
