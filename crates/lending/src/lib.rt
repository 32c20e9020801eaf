// A connection for a waiter: a new one is created, or one from the pool is lent.
#![tactic(auto)]

ghost use Rattle.records.specs.Output.{RoomFor};
ghost use Rattle.slots.specs.View.{pool_in, waiter_of};
ghost use Rattle.slots.specs.Done.{Does};
ghost use Rattle.slots.specs.Needs.{CanCreate, CanShelve};
ghost use Rattle.slots.specs.Slots.{establish, lend};

use definition::{ConnectionState, Purpose, Reply};
use records::Records;
use slots::ConnectionPoolWorker;

// Create, then 17.
pub fn establish(worker: &mut ConnectionPoolWorker, records: &mut Records, waiter: u64)
    requires { CanCreate (pool_in worker.old) × RoomFor 2 records.old }
    ensures { Does (establish (waiter_of waiter)) worker records }
{
    let id = worker.head.next_connection_id;
    acts::create_pending_connection(worker, records, ConnectionState::Pending(Purpose::Request));
    acts::tell(records, waiter, Reply::Establishing(id));
}

// The healthy one that was found is handed out, or put back as if just let go where nobody listens any more.
pub fn lend(worker: &mut ConnectionPoolWorker, records: &mut Records, waiter: u64, i: usize)
    requires { CanShelve (pool_in worker.old) i × RoomFor 1 records.old }
    ensures { Does (lend (waiter_of waiter) i) worker records }
{
    acts::tell(records, waiter, Reply::Pooled(worker.ids[i]));
    if 2 <= waiter % 4 {
        let now = worker.head.clock;
        acts::shelve(worker, i, now);
    } else {
        acts::set_state(worker, i, ConnectionState::CheckedOut);
    }
}
