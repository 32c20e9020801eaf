// The steps that go over the whole pool: maintenance, ready, clear and close.
#![tactic(auto)]

ghost use Rattle.std.specs.Prelude.{◌≡◌, ◌+◌, ◌-◌, ◌≤◌, length};
ghost use Rattle.definition.specs.Refusals.{enough_room, last_next_id, last_generation};
ghost use Rattle.records.specs.Output.{RoomFor};
ghost use Rattle.slots.specs.View.{pool_in};
ghost use Rattle.slots.specs.Done.{Did, Does};
ghost use Rattle.slots.specs.Slots.{maintenance, mark_as_ready, interrupted, cleared_ready, clear, shut};
ghost use Rattle.upkeep.specs.Stood.{Stood};

use definition::{PoolState, Record, Reply};
use records::Records;
use slots::{ConnectionPoolWorker, Head};

pub fn perform_maintenance(worker: &mut ConnectionPoolWorker, records: &mut Records)
    requires { Stood (pool_in worker.old) × (worker.old.head.next_connection_id ≤ last_next_id) × (enough_room ≤ length records.old.out.now) × (records.old.count ≡ 0) }
    ensures { Does maintenance worker records }
{
    sweeps::remove_perished_connections(worker, records);
    sweeps::ensure_min_connections(worker, records);
}

pub fn mark_as_ready(worker: &mut ConnectionPoolWorker, records: &mut Records)
    requires { RoomFor 1 records.old }
    ensures { Does mark_as_ready worker records }
{
    if conditions::is_ready(worker.head.status.state) {
        return;
    }
    records.emit(Record::PoolReady);
    worker.head.status.state = PoolState::Ready;
}

// How many are lent: neither available nor pending.
fn lent(head: &Head) -> u32
    requires { head.now.available_count + head.now.pending_connection_count ≤ head.now.total_connection_count }
    ensures { result ≡ head.now.total_connection_count - head.now.available_count - head.now.pending_connection_count }
{
    head.total_connection_count - head.available_count as u32 - head.pending_connection_count
}

// Who holds a connection is warned, on timeout.
fn interrupt(worker: &ConnectionPoolWorker, records: &mut Records, timeout: bool)
    requires { Stood (pool_in worker.now) × RoomFor 1 records.old }
    ensures { Did (interrupted timeout (pool_in worker.now)) worker.now records.old records.new }
{
    if timeout {
        records.emit(Record::Interrupt(lent(&worker.head)));
    }
}

// That it is cleared is told, and the waiters are, of a Ready pool.
fn clear_ready(worker: &mut ConnectionPoolWorker, records: &mut Records, timeout: bool, cause: u32)
    requires { Stood (pool_in worker.old) × (worker.old.head.status.generation ≡ last_generation → ⊥) × RoomFor (worker.old.head.waiting_count + 1) records.old }
    ensures { Does (cleared_ready timeout cause) worker records }
{
    let status = worker.head.status;
    if conditions::is_ready(status.state) {
        records.emit(Record::PoolCleared(timeout, cause, status.generation + 1));
        sweeps::tell_all(worker, records, Reply::Cleared(cause));
    }
}

// Who holds a connection is warned before all else. Whether the pool was Ready is asked before it is paused.
pub fn clear(worker: &mut ConnectionPoolWorker, records: &mut Records, timeout: bool, cause: u32)
    requires { Stood (pool_in worker.old) × (worker.old.head.status.generation ≡ last_generation → ⊥) × (enough_room ≤ length records.old.out.now) × (records.old.count ≡ 0) }
    ensures { Does (clear timeout cause) worker records }
{
    interrupt(worker, records, timeout);
    clear_ready(worker, records, timeout, cause);
    worker.head.status.state = PoolState::Paused(cause);
    worker.head.status.generation += 1;
}

// The available ones front to back, the waiters front to back, then that it is closed.
pub fn shut(worker: &mut ConnectionPoolWorker, records: &mut Records)
    requires { Stood (pool_in worker.old) × (enough_room ≤ length records.old.out.now) × (records.old.count ≡ 0) }
    ensures { Does shut worker records }
{
    sweeps::close_available(worker, records);
    sweeps::tell_all(worker, records, Reply::Gone);
    records.emit(Record::PoolShut);
    worker.head.status.state = PoolState::Closed;
}
