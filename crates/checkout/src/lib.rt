// The service stage: once after an event, the front waiter is taken.
#![tactic(auto)]

ghost use Rattle.std.specs.Prelude.{◌≡◌, ◌+◌, ◌<◌, ◌≤◌, get_or};
ghost use Rattle.definition.specs.Pool.{queue_length};
ghost use Rattle.records.specs.Output.{RoomFor};
ghost use Rattle.slots.specs.View.{pool_in, waiter_of};
ghost use Rattle.slots.specs.Done.{Does};
ghost use Rattle.slots.specs.Needs.{CanTake, CanWarm, CanServe};
ghost use Rattle.slots.specs.Slots.{check_out, can_service_at, dequeue, service};

use definition::Reply;
use records::Records;
use slots::{ConnectionPoolWorker, Head};

pub fn can_service_connection_request(head: &Head) -> bool
    ensures { result ≡ can_service_at head.now.status.state head.now.options head.now.available_count head.now.total_connection_count head.now.pending_connection_count }
{
    let may_create = (head.total_connection_count < head.options.maximum)
        & (head.pending_connection_count < head.options.connecting);
    conditions::is_ready(head.status.state) & ((0 < head.available_count) | may_create)
}

// A warming request has nothing to do once the minimum is there.
pub fn check_out(worker: &mut ConnectionPoolWorker, records: &mut Records, waiter: u64)
    requires { CanTake (pool_in worker.old) × CanWarm (pool_in worker.old) × RoomFor (worker.old.head.available_count + 2) records.old }
    ensures { Does (check_out (waiter_of waiter)) worker records }
{
    if waiter % 2 != 1 {
        taking::take_available(worker, records, waiter);
    } else if worker.head.options.minimum <= worker.head.total_connection_count {
        acts::tell(records, waiter, Reply::Warmed);
    } else {
        lending::establish(worker, records, waiter);
    }
}

// The front waiter leaves the queue.
fn dequeue(worker: &mut ConnectionPoolWorker) -> u64
    requires { (0 < worker.old.head.waiting_count) × (worker.old.head.waiting_count ≤ queue_length) }
    ensures waiter { result ≡ get_or worker.old.waiters 0 0 }
    ensures queue { pool_in worker.new ≡ (dequeue (pool_in worker.old)).pool }
{
    let waiter = worker.waiters[0];
    table::shift_waiters(&mut worker.waiters, worker.head.waiting_count);
    worker.head.waiting_count -= 1;
    waiter
}

pub fn service(worker: &mut ConnectionPoolWorker, records: &mut Records)
    requires { CanServe (pool_in worker.old) × RoomFor (worker.old.head.available_count + 2) records.old }
    ensures { Does service worker records }
{
    if !can_service_connection_request(&worker.head) {
        return;
    }
    if worker.head.waiting_count == 0 {
        return;
    }
    let waiter = dequeue(worker);
    check_out(worker, records, waiter);
}
