// A connection that was lent is given back: it is closed, or available again.
#![tactic(auto)]

ghost use Rattle.records.specs.Output.{RoomFor};
ghost use Rattle.slots.specs.View.{pool_in};
ghost use Rattle.slots.specs.Done.{Does};
ghost use Rattle.slots.specs.Needs.{CanClose, CanShelve};
ghost use Rattle.slots.specs.Slots.{check_in_at};

use definition::{ClosedReason, Record};
use records::Records;
use slots::ConnectionPoolWorker;

// A check-in: errored before stale before executing; else to the available list, available since it was let go.
pub fn check_in(
    worker: &mut ConnectionPoolWorker,
    records: &mut Records,
    i: usize,
    errored: bool,
    executing: bool,
    let_go: u64,
)
    requires { CanClose (pool_in worker.old) i × CanShelve (pool_in worker.old) i × RoomFor 2 records.old }
    ensures { Does (check_in_at i errored executing let_go) worker records }
{
    let status = worker.head.status;
    if conditions::is_closed(status.state) {
        acts::close_connection(worker, records, i, ClosedReason::PoolClosed, 0);
        return;
    }
    records.emit(Record::ConnectionCheckedIn(worker.ids[i]));
    if errored {
        acts::close_connection(worker, records, i, ClosedReason::Error, 0);
    } else if conditions::is_stale(status.generation, worker.generations[i]) {
        acts::close_connection(worker, records, i, ClosedReason::Stale, 0);
    } else if executing {
        acts::close_connection(worker, records, i, ClosedReason::Dropped, 0);
    } else {
        acts::shelve(worker, i, let_go);
    }
}
