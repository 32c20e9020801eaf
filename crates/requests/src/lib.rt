// A request comes to the queue or is answered at once, and one that waits is marked as abandoned.
#![tactic(auto)]

ghost use Rattle.std.specs.Prelude.{◌≡◌, ◌+◌, ◌<◌, ◌%◌, get_or};
ghost use Rattle.definition.specs.Pool.{queue_length};
ghost use Rattle.records.specs.Output.{RoomFor};
ghost use Rattle.slots.specs.View.{pool_in};
ghost use Rattle.slots.specs.Done.{Does};
ghost use Rattle.slots.specs.Needs.{CanQueue};
ghost use Rattle.slots.specs.Slots.{request, abandon_at};

use definition::{PoolState, Record, Reply};
use records::Records;
use slots::ConnectionPoolWorker;

// A request: to the queue's back if Ready, else answered at once with the cause.
pub fn request(worker: &mut ConnectionPoolWorker, records: &mut Records, id: u32, warm: bool)
    requires { CanQueue (pool_in worker.old) × RoomFor 1 records.old }
    ensures { Does (request id warm) worker records }
{
    worker.head.last_request = id;
    match worker.head.status.state {
        PoolState::New => records.emit(Record::Replied(id, Reply::Cleared(0))),
        PoolState::Paused(cause) => records.emit(Record::Replied(id, Reply::Cleared(cause))),
        PoolState::Ready => {
            let k = worker.head.waiting_count;
            worker.waiters[k] = 4 * id as u64 + warm as u64;
            worker.head.waiting_count = k + 1;
        }
        PoolState::Closed => {}
    }
}

// The marks of a waiter, and that of an abandoned one.
fn abandoned(w: u64) -> u64
    requires { w % 4 < 2 }
    ensures { result ≡ w + 2 }
{
    w / 4 * 4 + w % 2 + 2
}

// The waiter at place k, not abandoned so far, is marked so.
pub fn abandon(worker: &mut ConnectionPoolWorker, k: usize)
    requires { (k < queue_length) × (get_or worker.old.waiters k 0 % 4 < 2) }
    ensures { pool_in worker.new ≡ (abandon_at k (pool_in worker.old)).pool }
{
    worker.waiters[k] = abandoned(worker.waiters[k]);
}
