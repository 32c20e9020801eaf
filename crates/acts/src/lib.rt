// What the steps are made of: each act on the worker, as specs/Slots of the crate slots has it. An act that says something lays its
// record down behind those that the event has said before.
#![tactic(auto)]

ghost use Rattle.std.specs.Prelude.{◌≡◌, ◌<◌};
ghost use Rattle.definition.specs.Pool.{slot_count, state_no};
ghost use Rattle.definition.specs.Records.{told};
ghost use Rattle.records.specs.Output.{Fits, RoomFor, Emits};
ghost use Rattle.slots.specs.View.{pool_in, waiter_of};
ghost use Rattle.slots.specs.Done.{Does};
ghost use Rattle.slots.specs.Needs.{CanCreate, CanClose, CanShelve, CanPrune};
ghost use Rattle.slots.specs.Slots.{close_at, shelve, set_state_at, pop_front, pop_back, create_pending_connection};

use definition::{ClosedReason, ConnectionState, Record, Reply};
use records::Records;
use slots::ConnectionPoolWorker;

// A waiter is told: the reply, or that nobody listens any more, where it was abandoned.
#[tactic(auto, using(crate::proofs::Laws::tells))]
pub fn tell(records: &mut Records, waiter: u64, reply: Reply)
    requires { Fits records.old }
    ensures { Emits (told reply (waiter_of waiter)) records.old records.new }
{
    let id = (waiter / 4 % 4294967296) as u32;
    if 2 <= waiter % 4 {
        records.emit(Record::Replied(id, Reply::Unheard));
    } else {
        records.emit(Record::Replied(id, reply));
    }
}

// The connection in slot i is closed, and the slot is vacant; the record says `other` of it.
pub fn close_connection(
    worker: &mut ConnectionPoolWorker,
    records: &mut Records,
    i: usize,
    reason: ClosedReason,
    other: u32,
)
    requires { CanClose (pool_in worker.old) i × RoomFor 1 records.old }
    ensures { Does (close_at reason i other) worker records }
{
    records.emit(Record::ConnectionClosed(reason, worker.ids[i], other));
    table::put_slot(worker, i, 0, 0, 0, 0);
    worker.head.total_connection_count -= 1;
}

// Slot i is available from that time on, and the last in line.
pub fn shelve(worker: &mut ConnectionPoolWorker, i: usize, since: u64)
    requires { CanShelve (pool_in worker.old) i }
    ensures { pool_in worker.new ≡ (shelve i since (pool_in worker.old)).pool }
{
    let k = worker.head.available_count;
    worker.available[k] = i as u8;
    worker.times[i] = since;
    worker.states[i] = u8::from(ConnectionState::CheckedIn);
    worker.head.available_count = k + 1;
}

// Slot i in another state, now.
pub fn set_state(worker: &mut ConnectionPoolWorker, i: usize, state: ConnectionState)
    requires { i < slot_count }
    ensures { pool_in worker.new ≡ (set_state_at (state_no state) i (pool_in worker.old)).pool }
{
    worker.times[i] = worker.head.clock;
    worker.states[i] = u8::from(state);
}

// The front, or the back, leaves the available list.
pub fn pop_front(worker: &mut ConnectionPoolWorker)
    requires { CanPrune (pool_in worker.old) × (0 < worker.old.head.available_count) }
    ensures { pool_in worker.new ≡ (pop_front (pool_in worker.old)).pool }
{
    table::shift_order(&mut worker.available, worker.head.available_count);
    worker.head.available_count -= 1;
}

pub fn pop_back(worker: &mut ConnectionPoolWorker)
    requires { CanPrune (pool_in worker.old) × (0 < worker.old.head.available_count) }
    ensures { pool_in worker.new ≡ (pop_back (pool_in worker.old)).pool }
{
    worker.head.available_count -= 1;
    worker.available[worker.head.available_count] = 0;
}

// A new connection in a vacant slot, pending.
pub fn create_pending_connection(
    worker: &mut ConnectionPoolWorker,
    records: &mut Records,
    state: ConnectionState,
)
    requires { CanCreate (pool_in worker.old) × RoomFor 1 records.old }
    ensures { Does (create_pending_connection (state_no state)) worker records }
{
    let i = table::find_vacant(&worker.ids);
    let id = worker.head.next_connection_id;
    records.emit(Record::ConnectionCreated(id));
    let generation = worker.head.status.generation;
    let now = worker.head.clock;
    table::put_slot(worker, i, id, generation, now, u8::from(state));
    worker.head.next_connection_id = id + 1;
    worker.head.total_connection_count += 1;
    worker.head.pending_connection_count += 1;
}
