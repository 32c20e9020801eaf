// What an accepted event asks for is done: its own step at its time, then the service stage, which serves the queue.
#![tactic(auto)]

ghost use Rattle.std.specs.Prelude.{◌≡◌, ◌≤◌, length};
ghost use Rattle.definition.specs.Refusals.{enough_room};
ghost use Rattle.definition.specs.Steps.{serviced};
ghost use Rattle.slots.specs.View.{pool_in, with_clock};
ghost use Rattle.slots.specs.Done.{DoesFrom};
ghost use Rattle.slots.specs.Slots.{event};
ghost use Rattle.slots.specs.Call.{target};
ghost use Rattle.refinement.specs.Stands.{Formed};
ghost use Rattle.refinement.specs.Tests.{Passed};

use definition::Event;
use records::Records;
use slots::ConnectionPoolWorker;

// What reaches the worker's loop, each turn of which ends in service.
fn is_serviced(e: Event) -> bool
    ensures { result ≡ serviced e }
{
    match e {
        Event::Abandon(_)
        | Event::Pin(_)
        | Event::ReturnToPinner(_)
        | Event::TakeFromPinner(_)
        | Event::Close => false,
        Event::CheckOut(_)
        | Event::WarmPool(_)
        | Event::CheckIn(_, _, _, _)
        | Event::Clear(_, _)
        | Event::MarkAsReady
        | Event::Succeeded(_)
        | Event::SucceededForPool(_, _)
        | Event::Failed(_)
        | Event::Maintenance
        | Event::FillPool => true,
    }
}

// An event that no test refuses: its own step at its time, then, once, the service stage.
pub fn event(
    worker: &mut ConnectionPoolWorker,
    records: &mut Records,
    e: Event,
    time: u64,
    i: usize,
)
    requires { Formed (pool_in worker.old) × Passed (pool_in worker.old) e time × (i ≡ target (pool_in worker.old) e) × (enough_room ≤ length records.old.out.now) × (records.old.count ≡ 0) }
    ensures { DoesFrom (event e i) (with_clock (pool_in worker.old) time) worker records }
{
    worker.head.clock = time;
    dispatch::handle(worker, records, e, i);
    if is_serviced(e) {
        checkout::service(worker, records);
    }
}
