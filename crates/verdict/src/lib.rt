// What the tests say of an event: refused, or at which slot or waiter.
#![tactic(auto)]

ghost use Rattle.std.specs.Prelude.{◌≡◌, ◌≤◌};
ghost use Rattle.definition.specs.Pool.{queue_length};
ghost use Rattle.definition.specs.Refusals.{first};
ghost use Rattle.slots.specs.Order.{place_of};
ghost use Rattle.slots.specs.View.{pool_in};
ghost use Rattle.slots.specs.Call.{slot_of, state_of, time_of, or_accept, no_target, verdict};
ghost use Rattle.verdict.specs.Look.{Looks, in_states, request_list, abandon_list, state_list, time_list, pin_list, kind_verdict};

use definition::{Event, QUEUE, Refusal, SLOTS};
use slots::{ConnectionPoolWorker, Verdict, Waiters};

// What an event is accepted with that names neither a slot nor a waiter.
const NO_TARGET: usize = 0;

// The slot of an id, the count of slots where none has it, and what stands there.
#[derive(Clone, Copy)]
pub struct Found {
    pub at: usize,
    pub state: u8,
    pub time: u64,
}

// Of an id that no slot has, the state is 0, as that of a vacant slot.
pub fn look(worker: &ConnectionPoolWorker, id: u32) -> Found
    ensures { Looks (pool_in worker.now).ids (pool_in worker.now).slots id result }
{
    let i = table::find(&worker.ids, id);
    if i < SLOTS {
        return Found {
            at: i,
            state: worker.states[i],
            time: worker.times[i],
        };
    }
    Found {
        at: i,
        state: 0,
        time: 0,
    }
}

// 6 and 7, of a request.
fn request_verdict(last_request: u32, waiting: usize, id: u32) -> Verdict
    ensures { result ≡ or_accept no_target (first (request_list last_request waiting id)) }
{
    if id <= last_request {
        return Err(Refusal::OldRequest);
    }
    if QUEUE <= waiting {
        return Err(Refusal::QueueFull);
    }
    Ok(NO_TARGET)
}

// 11, of an abandon.
fn abandon_verdict(waiters: &Waiters, waiting: usize, id: u32) -> Verdict
    requires { waiting ≤ queue_length }
    ensures { result ≡ or_accept (place_of id waiting waiters.now) (first (abandon_list waiters.now waiting id)) }
{
    let k = table::find_waiter(waiters, waiting, id);
    if k < waiting && waiters[k] % 4 < 2 {
        return Ok(k);
    }
    Err(Refusal::NotWaiting)
}

// The connection's slot, where it is in a state of the range. That of no connection is 0, which no range holds.
fn find_in(worker: &ConnectionPoolWorker, id: u32, low: u8, high: u8) -> Result<Found, Refusal>
    ensures { result ≡ in_states (pool_in worker.now) id low high }
{
    let f = look(worker, id);
    if !(low..=high).contains(&f.state) {
        return Err(Refusal::WrongState);
    }
    Ok(f)
}

// 8.
fn state_verdict(worker: &ConnectionPoolWorker, id: u32, low: u8, high: u8) -> Verdict
    ensures { result ≡ or_accept (slot_of (pool_in worker.now) id) (first (state_list (state_of (pool_in worker.now) id) low high)) }
{
    Ok(find_in(worker, id, low, high)?.at)
}

// 8, then 9.
fn time_verdict(
    worker: &ConnectionPoolWorker,
    id: u32,
    low: u8,
    high: u8,
    second: u64,
    time: u64,
) -> Verdict
    ensures { result ≡ or_accept (slot_of (pool_in worker.now) id) (first (time_list (state_of (pool_in worker.now) id) low high second (time_of (pool_in worker.now) id) time)) }
{
    let f = find_in(worker, id, low, high)?;
    if time < second || second < f.time {
        return Err(Refusal::WrongTime);
    }
    Ok(f.at)
}

// 12 before 8, of a pin.
fn pin_verdict(worker: &ConnectionPoolWorker, id: u32) -> Verdict
    ensures { result ≡ or_accept (slot_of (pool_in worker.now) id) (first (pin_list (state_of (pool_in worker.now) id))) }
{
    let f = look(worker, id);
    match f.state {
        2 => Ok(f.at),
        3 | 4 => Err(Refusal::AlreadyPinned),
        _ => Err(Refusal::WrongState),
    }
}

// The tests of one kind of event.
pub fn kind_verdict(worker: &ConnectionPoolWorker, e: Event, time: u64) -> Verdict
    requires { worker.now.head.waiting_count ≤ queue_length }
    ensures { result ≡ kind_verdict (pool_in worker.now) e time }
{
    let head = &worker.head;
    match e {
        Event::CheckOut(id) | Event::WarmPool(id) => {
            request_verdict(head.last_request, head.waiting_count, id)
        }
        Event::Abandon(id) => abandon_verdict(&worker.waiters, head.waiting_count, id),
        Event::CheckIn(id, _, _, let_go) => time_verdict(worker, id, 2, 4, let_go, time),
        Event::Succeeded(id) => state_verdict(worker, id, 5, 5),
        Event::SucceededForPool(id, opened) => time_verdict(worker, id, 6, 6, opened, time),
        Event::Failed(id) => state_verdict(worker, id, 5, 6),
        Event::Pin(id) => pin_verdict(worker, id),
        Event::ReturnToPinner(id) => state_verdict(worker, id, 3, 3),
        Event::TakeFromPinner(id) => state_verdict(worker, id, 3, 4),
        Event::Clear(_, _)
        | Event::MarkAsReady
        | Event::Maintenance
        | Event::FillPool
        | Event::Close => Ok(NO_TARGET),
    }
}

// All tests of an event, in order.
pub fn verdict(worker: &ConnectionPoolWorker, e: Event, time: u64) -> Verdict
    requires { worker.now.head.waiting_count ≤ queue_length }
    ensures { result ≡ verdict (pool_in worker.now) e time }
{
    let head = &worker.head;
    common_tests::common_verdict(head.clock, head.next_connection_id, head.status, time, e)?;
    kind_verdict(worker, e, time)
}
