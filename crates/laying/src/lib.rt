// The lines that are written for what a line of words tells, by the writer.
#![tactic(auto)]

ghost use Rattle.std.specs.Prelude.{◌≡◌, ◌≤◌, length};
ghost use Rattle.definition.specs.Bytes.{frame_bytes, frame_of};
ghost use Rattle.laying.specs.Laying.{first_line, frame_line, written, line_room, Lays, bytes_in};

use definition::{Event, Refusal};
use heading::{Heading, Told};

// How many bytes a writer wrote.
fn count(w: Result<usize, Refusal>) -> usize
    ensures { result ≡ bytes_in w }
{
    w.unwrap_or(0)
}

// The options' line, where no event has come.
pub fn lay_first(h: Heading, out: &mut [u8]) -> usize
    requires { 49 ≤ length out.old }
    ensures { Lays (first_line h) out.old result out.new }
{
    if h.is_begun {
        return 0;
    }
    count(writing::write_options(h.options(), out))
}

// The line of an event.
fn lay_event(time: u64, e: Event, out: &mut [u8]) -> usize
    requires { 49 ≤ length out.old }
    ensures { Lays (frame_line (frame_of (frame_bytes e time))) out.old result out.new }
{
    let frame = framing::frame_bytes(e, time);
    count(writing::write_event(&frame, out))
}

// What is written for a line: with the first event, the options' line before it.
pub fn lay(h: Heading, t: Told, out: &mut [u8]) -> usize
    requires { line_room ≤ length out.old }
    ensures { Lays (written h t) out.old result out.new }
{
    match t {
        Told::Nothing | Told::Mistake(_) => 0,
        Told::Event(time, e) => {
            let n = lay_first(h, out);
            n + lay_event(time, e, &mut out[n..])
        }
    }
}
