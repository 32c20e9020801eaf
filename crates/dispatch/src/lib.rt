// Of the fifteen kinds of event, each goes to its step.
#![tactic(auto)]

ghost use Rattle.std.specs.Prelude.{◌≡◌, ◌≤◌, length};
ghost use Rattle.definition.specs.Refusals.{enough_room};
ghost use Rattle.slots.specs.View.{pool_in};
ghost use Rattle.slots.specs.Done.{Does};
ghost use Rattle.slots.specs.Slots.{handle};
ghost use Rattle.dispatch.specs.Asks.{Asks};

use definition::{ConnectionState, Event, PinnedState};
use records::Records;
use slots::ConnectionPoolWorker;

// The event's own step, on the slot or the waiter that it names; the clock is the event's.
#[tactic(auto, using(crate::proofs::Handled::asked), unfolding(slots::specs::Slots::handle, slots::specs::Slots::abandon_at, slots::specs::Slots::set_state_at))]
pub fn handle(worker: &mut ConnectionPoolWorker, records: &mut Records, e: Event, i: usize)
    requires { Asks e i (pool_in worker.old) × (enough_room ≤ length records.old.out.now) × (records.old.count ≡ 0) }
    ensures { Does (handle e i) worker records }
{
    match e {
        Event::CheckOut(id) => requests::request(worker, records, id, false),
        Event::WarmPool(id) => requests::request(worker, records, id, true),
        Event::Abandon(_) => requests::abandon(worker, i),
        Event::CheckIn(_, errored, executing, let_go) => check_in::check_in(
            worker, records, i, errored, executing, let_go,
        ),
        Event::Clear(timeout, cause) => upkeep::clear(worker, records, timeout, cause),
        Event::MarkAsReady => upkeep::mark_as_ready(worker, records),
        Event::Succeeded(_) => pending::handle_connection_succeeded(worker, records, i),
        Event::SucceededForPool(_, opened) => pending::handle_connection_succeeded_for_pool(
            worker, records, i, opened,
        ),
        Event::Failed(_) => pending::handle_connection_failed(worker, records, i),
        Event::Maintenance => upkeep::perform_maintenance(worker, records),
        Event::FillPool => {}
        Event::Pin(_) => acts::set_state(worker, i, ConnectionState::Pinned(PinnedState::InUse)),
        Event::ReturnToPinner(_) => acts::set_state(
            worker,
            i,
            ConnectionState::Pinned(PinnedState::Returned),
        ),
        Event::TakeFromPinner(_) => acts::set_state(
            worker,
            i,
            ConnectionState::Pinned(PinnedState::InUse),
        ),
        Event::Close => upkeep::shut(worker, records),
    }
}
