// A frame's line: the call that it makes, and what that says in the log.
#![tactic(auto)]

ghost use Rattle.std.specs.Prelude.{◌≡◌, ◌+◌, ◌%◌, ◌≤◌, ◌<◌, length};
ghost use Rattle.definition.specs.Refusals.{enough_room};
ghost use Rattle.definition.specs.Bytes.{frame_of_line};
ghost use Rattle.slots.specs.View.{pool_in};
ghost use Rattle.slots.specs.Call.{call};
ghost use Rattle.refinement.specs.Stands.{Formed};
ghost use Rattle.refinement.specs.RecordRoom.{FewIn};
ghost use Rattle.first_line.specs.Took.{line_room};
ghost use Rattle.first_line.specs.Code.{play_in, Lined};
ghost use Rattle.frame_lines.specs.OnSlots.{said_of, answered};
ghost use Rattle.frame_lines.specs.Code.{Said};

use definition::LINE;
use first_line::{Pace, Phase, Replayer};
use slots::Outcome;

// The number of the line after `used` frames, the options line being 1.
fn line_number(used: u64) -> u32
    ensures { result ≡ (used + 2) % 4294967296 }
{
    ((used % 4294967296 + 2) % 4294967296) as u32
}

// A call's answer in the log, and how much that is: the records in the scratch, or the refusal of the line after `used` frames.
fn say(answer: Outcome, used: u64, scratch: &[u8], out: &mut [u8]) -> usize
    requires { FewIn answer × (enough_room ≤ length scratch.now) × (line_room ≤ length out.old) }
    ensures { Said (said_of answer scratch.now (used + 2)) out.old out.new result }
{
    match answer {
        Err(refusal) => {
            refusals::print_refusal(refusal, line_number(used), out);
            LINE
        }
        Ok(count) => {
            let n = count as usize;
            printing::print_records(scratch, n, out);
            n * LINE
        }
    }
}

// A later line: a frame, refused or not. The pool's structure is not tested: it is formed, and stays so.
pub fn take_frame(r: &mut Replayer, line: &[u8], out: &mut [u8]) -> usize
    requires { (r.old.pace.used < r.old.pace.budget) × Formed (pool_in r.old.worker) × (line_room ≤ length out.old) }
    ensures { Lined (answered (play_in r.old) (call (pool_in r.old.worker) r.old.scratch (frame_of_line line.now))) out.old out.new (play_in r.new) result }
{
    let pace = r.pace;
    let frame = reading::line_frame(line);
    let answer = event::call(&mut r.worker, &mut r.scratch, frame);
    let n = say(answer, pace.used, &r.scratch, out);
    r.pace = Pace {
        phase: Phase::Going,
        used: pace.used + 1,
        ..pace
    };
    n
}
