// What becomes of a pending connection: for a request, in background, or failed.
#![tactic(auto)]

ghost use Rattle.std.specs.Prelude.{◌≡◌, ◌<◌};
ghost use Rattle.records.specs.Output.{RoomFor};
ghost use Rattle.slots.specs.View.{pool_in};
ghost use Rattle.slots.specs.Done.{Does};
ghost use Rattle.slots.specs.Needs.{CanLeave};
ghost use Rattle.slots.specs.Slots.{leave_pending, succeeded_at, succeeded_for_pool_at, failed_at};

use definition::{ClosedReason, ConnectionState, Record};
use records::Records;
use slots::ConnectionPoolWorker;

fn leave_pending(worker: &mut ConnectionPoolWorker)
    requires { 0 < worker.old.head.pending_connection_count }
    ensures { pool_in worker.new ≡ (leave_pending (pool_in worker.old)).pool }
{
    worker.head.pending_connection_count -= 1;
}

// A pending connection for a request becomes lent.
pub fn handle_connection_succeeded(
    worker: &mut ConnectionPoolWorker,
    records: &mut Records,
    i: usize,
)
    requires { CanLeave (pool_in worker.old) i × RoomFor 1 records.old }
    ensures { Does (succeeded_at i) worker records }
{
    records.emit(Record::ConnectionReady(worker.ids[i]));
    leave_pending(worker);
    acts::set_state(worker, i, ConnectionState::CheckedOut);
}

// One in background becomes available, even if stale; of a closed pool it is closed.
pub fn handle_connection_succeeded_for_pool(
    worker: &mut ConnectionPoolWorker,
    records: &mut Records,
    i: usize,
    opened: u64,
)
    requires { CanLeave (pool_in worker.old) i × RoomFor 2 records.old }
    ensures { Does (succeeded_for_pool_at i opened) worker records }
{
    records.emit(Record::ConnectionReady(worker.ids[i]));
    leave_pending(worker);
    if conditions::is_closed(worker.head.status.state) {
        acts::close_connection(worker, records, i, ClosedReason::PoolClosed, 0);
    } else {
        acts::shelve(worker, i, opened);
    }
}

pub fn handle_connection_failed(worker: &mut ConnectionPoolWorker, records: &mut Records, i: usize)
    requires { CanLeave (pool_in worker.old) i × RoomFor 1 records.old }
    ensures { Does (failed_at i) worker records }
{
    leave_pending(worker);
    acts::close_connection(worker, records, i, ClosedReason::Error, 0);
}
