// A waiter takes from the available back, past those that have perished.
#![tactic(auto)]

ghost use Rattle.std.specs.Prelude.{◌+◌};
ghost use Rattle.records.specs.Output.{RoomFor};
ghost use Rattle.slots.specs.View.{pool_in, waiter_of};
ghost use Rattle.slots.specs.Done.{Does};
ghost use Rattle.slots.specs.Needs.{CanTake};
ghost use Rattle.slots.specs.Slots.{take_from};

use records::Records;
use slots::ConnectionPoolWorker;

// From the available back: those that have perished are closed, until one is lent; else one is created. By the pool's own count, which
// the calls of each turn move.
pub fn take_available(worker: &mut ConnectionPoolWorker, records: &mut Records, waiter: u64)
    requires { CanTake (pool_in worker.old) × RoomFor (worker.old.head.available_count + 2) records.old }
    ensures { Does (take_from worker.old.head.available_count (waiter_of waiter)) worker records }
{
    while 0 < worker.head.available_count {
        let back = conditions::examine(worker, worker.head.available_count - 1);
        acts::pop_back(worker);
        let Some((reason, age)) = back.perished else {
            lending::lend(worker, records, waiter, back.slot);
            return;
        };
        acts::close_connection(worker, records, back.slot, reason, age);
    }
    lending::establish(worker, records, waiter);
}
