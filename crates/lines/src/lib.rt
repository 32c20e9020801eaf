// One line of a day: what it changes in the pool, and what it says in the log.
#![tactic(auto)]

ghost use Rattle.std.specs.Prelude.{◌≤◌, length};
ghost use Rattle.first_line.specs.Took.{line_room};
ghost use Rattle.first_line.specs.Code.{play_in, AbleIn, Lined};
ghost use Rattle.lines.specs.OnSlots.{line_slots, last_slots};
ghost use Rattle.lines.specs.Told.{Told};

use definition::Refusal;
use first_line::{Phase, Replayer};

// A line with its newline, or the bytes after the last one. The answer is how much of the output was written.
pub fn take_line(r: &mut Replayer, line: &[u8], out: &mut [u8]) -> usize
    requires { AbleIn r.old × (line_room ≤ length out.old) }
    ensures { Lined (line_slots (play_in r.old) line.now) out.old out.new (play_in r.new) result }
{
    match r.pace.phase {
        Phase::First => first_line::take_first(r, line, out),
        Phase::Going => {
            if r.pace.used < r.pace.budget {
                frame_lines::take_frame(r, line, out)
            } else {
                0
            }
        }
        Phase::Ended => 0,
    }
}

// The text's end, where nothing stands after the last newline: an empty text counts as a bad first line.
pub fn take_end(r: &mut Replayer, out: &mut [u8]) -> usize
    requires { line_room ≤ length out.old }
    ensures { Told (last_slots (play_in r.old)) out.old out.new (play_in r.new) result × (AbleIn r.old → Lined (last_slots (play_in r.old)) out.old out.new (play_in r.new) result) }
{
    match r.pace.phase {
        Phase::First => first_line::bad_options(r, Refusal::Malformed, out),
        Phase::Going | Phase::Ended => 0,
    }
}
