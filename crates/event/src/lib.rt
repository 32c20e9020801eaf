// One event: its tests, what it asks for, the serial moved past its records, and the answer.
#![tactic(auto)]

ghost use Rattle.std.specs.Prelude.{◌≡◌, ◌≤◌, length};
ghost use Rattle.definition.specs.Refusals.{enough_room};
ghost use Rattle.slots.specs.View.{pool_in};
ghost use Rattle.slots.specs.Call.{world, step, call};
ghost use Rattle.refinement.specs.Stands.{Formed};

use definition::{Event, Frame, ROOM, Refusal};
use records::Records;
use slots::{ConnectionPoolWorker, Outcome};

// Any event: refused, and then nothing is changed, or done.
pub fn step(worker: &mut ConnectionPoolWorker, out: &mut [u8], e: Event, time: u64) -> Outcome
    requires { Formed (pool_in worker.old) × (enough_room ≤ length out.old) }
    ensures { world (pool_in worker.new) out.new result ≡ step (pool_in worker.old) out.old e time }
{
    let i = verdict::verdict(worker, e, time)?;
    let serial = worker.head.serial;
    let mut records = Records {
        out,
        serial,
        count: 0,
    };
    performing::event(worker, &mut records, e, time, i);
    let count = records.count as u32;
    worker.head.serial = std::num::wrapping_add_u32(serial, count);
    Ok(count)
}

// Any frame, any output.
#[tactic(auto, using(crate::proofs::Calls::called))]
pub fn call(worker: &mut ConnectionPoolWorker, out: &mut [u8], frame: Frame) -> Outcome
    requires { Formed (pool_in worker.old) }
    ensures { world (pool_in worker.new) out.new result ≡ call (pool_in worker.old) out.old frame }
{
    if out.len() < ROOM {
        return Err(Refusal::OutputShort);
    }
    match frame {
        Frame::Good(e, time) => step(worker, out, e, time),
        Frame::Bad => Err(Refusal::Malformed),
    }
}
