// What goes over a list, one by one: the waiters that are told, the available ones that are closed, those that are made. A loop is a
// `while` where the pool's own count ends it, which the calls of each turn move.
#![tactic(auto)]

ghost use Rattle.definition.specs.Pool.{slot_count};
ghost use Rattle.records.specs.Output.{RoomFor};
ghost use Rattle.slots.specs.View.{pool_in};
ghost use Rattle.slots.specs.Done.{Does};
ghost use Rattle.slots.specs.Needs.{CanPrune, CanFill, CanTell};
ghost use Rattle.slots.specs.Slots.{remove_perished, ensure_min_connections, tell_all, close_front};

use definition::{ClosedReason, ConnectionState, Purpose, Reply};
use records::Records;
use slots::ConnectionPoolWorker;

// Every waiter is told, front to back.
pub fn tell_all(worker: &mut ConnectionPoolWorker, records: &mut Records, reply: Reply)
    requires { CanTell (pool_in worker.old) × RoomFor worker.old.head.waiting_count records.old }
    ensures { Does (tell_all reply) worker records }
{
    for k in 0..worker.head.waiting_count {
        acts::tell(records, worker.waiters[k], reply);
        worker.waiters[k] = 0;
    }
    worker.head.waiting_count = 0;
}

// Maintenance, first: from the available front, up to the first healthy one.
pub fn remove_perished_connections(worker: &mut ConnectionPoolWorker, records: &mut Records)
    requires { CanPrune (pool_in worker.old) × RoomFor worker.old.head.available_count records.old }
    ensures { Does remove_perished worker records }
{
    while 0 < worker.head.available_count {
        let front = conditions::examine(worker, 0);
        let Some((reason, age)) = front.perished else {
            return;
        };
        acts::pop_front(worker);
        acts::close_connection(worker, records, front.slot, reason, age);
    }
}

// The second part of maintenance: the pool is filled up to its minimum, in background, as far as more may be pending.
pub fn ensure_min_connections(worker: &mut ConnectionPoolWorker, records: &mut Records)
    requires { CanFill (pool_in worker.old) × RoomFor slot_count records.old }
    ensures { Does ensure_min_connections worker records }
{
    if !conditions::is_ready(worker.head.status.state) {
        return;
    }
    let options = worker.head.options;
    while worker.head.total_connection_count < options.minimum {
        if options.connecting <= worker.head.pending_connection_count {
            return;
        }
        acts::create_pending_connection(
            worker,
            records,
            ConnectionState::Pending(Purpose::Background),
        );
    }
}

// Every available connection, front to back, is closed with its pool.
pub fn close_available(worker: &mut ConnectionPoolWorker, records: &mut Records)
    requires { CanPrune (pool_in worker.old) × RoomFor worker.old.head.available_count records.old }
    ensures { Does (close_front worker.old.head.available_count) worker records }
{
    while 0 < worker.head.available_count {
        let front = worker.available[0] as usize;
        acts::pop_front(worker);
        acts::close_connection(worker, records, front, ClosedReason::PoolClosed, 0);
    }
}
