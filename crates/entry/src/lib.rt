// The entry point: a pool value, bytes and an output, for all inputs, with no condition on any.
#![tactic(auto)]

ghost use Rattle.std.specs.Prelude.{◌≡◌};
ghost use Rattle.entry.specs.Entry.{entered, entry};

use definition::{ROOM, Refusal};
use pool::Pool;
use slots::Outcome;

// Not a Result: a refused step gives a pool too (`entry`). The answer stands first: where it lies does not depend on the pool's size.
#[derive(Clone, Copy)]
pub struct Stepped {
    pub outcome: Outcome,
    pub pool: Pool,
}

// Any pool value, any frame, any output. A refusal gives the pool back as it came, and leaves the output.
pub fn step(pool: Pool, frame: &[u8], out: &mut [u8]) -> Stepped
    ensures { entered result.pool out.new result.outcome ≡ entry pool frame.now out.old }
{
    if out.len() < ROOM {
        return Stepped {
            outcome: Err(Refusal::OutputShort),
            pool,
        };
    }
    let mut worker = columns::worker_of(&pool);
    if !rules::keeps_rules(&worker) {
        return Stepped {
            outcome: Err(Refusal::Malformed),
            pool,
        };
    }
    let outcome = event::call(&mut worker, out, reading::frame_of(frame));
    Stepped {
        outcome,
        pool: columns::pool_of(&worker),
    }
}
