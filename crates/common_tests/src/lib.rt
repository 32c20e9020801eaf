// The tests that every event must pass, whatever its kind: a clear's cause, the event's time, the closed pool, the numbers spent.
#![tactic(auto)]

ghost use Rattle.std.specs.Prelude.{◌≡◌};
ghost use Rattle.definition.specs.Refusals.{taken_after_close};
ghost use Rattle.common_tests.specs.Tests.{spent, common_verdict};

use definition::{Event, LAST_NEXT_ID, Refusal};
use slots::Status;

// A clear goes to the next generation; there is none behind this one.
const LAST_GENERATION: u32 = 4294967295;

// Who holds a connection, or awaits one, is still heard after the close.
fn taken_after_close(e: Event) -> bool
    ensures { result ≡ taken_after_close e }
{
    match e {
        Event::CheckIn(_, _, _, _)
        | Event::Succeeded(_)
        | Event::SucceededForPool(_, _)
        | Event::Failed(_)
        | Event::Pin(_)
        | Event::ReturnToPinner(_)
        | Event::TakeFromPinner(_) => true,
        Event::CheckOut(_)
        | Event::WarmPool(_)
        | Event::Abandon(_)
        | Event::Clear(_, _)
        | Event::MarkAsReady
        | Event::Maintenance
        | Event::FillPool
        | Event::Close => false,
    }
}

// 5, of an open pool.
fn numbers_spent(e: Event, generation: u32, next_id: u32) -> bool
    ensures { result ≡ spent e generation next_id }
{
    match e {
        Event::Close => false,
        Event::Clear(_, _) => LAST_NEXT_ID < next_id || generation == LAST_GENERATION,
        _ => LAST_NEXT_ID < next_id,
    }
}

// 2, of a clear; 3, 4 and 5.
pub fn common_verdict(
    clock: u64,
    next_id: u32,
    m: Status,
    time: u64,
    e: Event,
) -> Result<(), Refusal>
    ensures { result ≡ common_verdict clock next_id m time e }
{
    if reading::causeless(e) {
        return Err(Refusal::Malformed);
    }
    if time < clock {
        return Err(Refusal::ClockBack);
    }
    if conditions::is_closed(m.state) {
        if taken_after_close(e) {
            return Ok(());
        }
        return Err(Refusal::AfterClose);
    }
    if numbers_spent(e, m.generation, next_id) {
        return Err(Refusal::NumbersSpent);
    }
    Ok(())
}
