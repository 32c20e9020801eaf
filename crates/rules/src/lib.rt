// The structure test: whether a pool keeps the rules, which is whether it stands for some lists of the definition, and for such as a
// reached pool has.
#![tactic(auto)]

ghost use Rattle.std.specs.Prelude.{◌≡◌};
ghost use Rattle.promises.specs.States.{state_fits};
ghost use Rattle.slots.specs.View.{pool_in};
ghost use Rattle.rules.specs.Exact.{Exactly};
ghost use Rattle.rules.specs.Tests.{hangs_together, is_settled};

use definition::{MOST_NEXT_ID, PoolState};
use slots::{ConnectionPoolWorker, Head};

// What the head, the slots, the list and the queue say of each other.
#[tactic(auto, unfolding(crate::specs::Tests::hangs_together))]
fn hangs_together(worker: &ConnectionPoolWorker) -> bool
    ensures { result ≡ hangs_together worker.now }
{
    let head = &worker.head;
    options::in_range(head.options)
        && head.next_connection_id <= MOST_NEXT_ID
        && slot_rules::ids_below(&worker.ids, head.next_connection_id)
        && slot_rules::ids_distinct(&worker.ids)
        && slot_rules::slots_fit(worker)
        && slot_rules::counts_right(
            &worker.states,
            head.total_connection_count,
            head.pending_connection_count,
            head.available_count,
        )
        && list_rules::order_right(&worker.available, &worker.states, head.available_count)
        && list_rules::order_blank_from(&worker.available, head.available_count)
        && list_rules::queue_rises(&worker.waiters, head.waiting_count, head.last_request)
        && list_rules::queue_blank_from(&worker.waiters, head.waiting_count)
}

// What a state says of the rest of the pool.
fn state_fits(head: &Head) -> bool
    ensures { result ≡ state_fits head.now.status.state head.now.status.generation head.now.next_connection_id head.now.total_connection_count head.now.available_count head.now.waiting_count }
{
    match head.status.state {
        PoolState::New => {
            head.status.generation == 0
                && head.next_connection_id == 1
                && head.total_connection_count == 0
                && head.waiting_count == 0
        }
        PoolState::Paused(cause) => {
            0 < cause && 0 < head.status.generation && head.waiting_count == 0
        }
        PoolState::Ready => true,
        PoolState::Closed => head.available_count == 0 && head.waiting_count == 0,
    }
}

// What a reached pool has besides: no more connections than its maximum, all of them in slots below it; a state that fits; and no slot
// of a generation or a time to come.
#[tactic(auto, unfolding(crate::specs::Tests::is_settled))]
fn is_settled(worker: &ConnectionPoolWorker) -> bool
    ensures { result ≡ is_settled worker.now }
{
    let head = &worker.head;
    let most = head.options.maximum;
    head.total_connection_count <= most
        && state_fits(head)
        && slot_rules::slots_dated(
            &worker.generations,
            &worker.times,
            head.status.generation,
            head.clock,
        )
        && list_rules::ids_blank_from(&worker.ids, most as usize)
}

// The structure test: whether a pool keeps every rule.
pub fn keeps_rules(worker: &ConnectionPoolWorker) -> bool
    ensures { Exactly result (pool_in worker.now) }
{
    // Read, so that its type says that it fits, and the columns' types their lengths.
    let _serial = worker.head.serial;
    hangs_together(worker) && is_settled(worker)
}
