// A day written into a lent buffer: the line of its options, then a line for each event. The answer is how many bytes were
// written, or why none were: all tests come before the first byte, so that a refusal leaves the buffer as it was.
#![tactic(auto)]

ghost use Rattle.std.specs.Prelude.{◌≡◌, ◌++◌, ◌*◌, ◌≤◌, length, drop};
ghost use Rattle.definition.specs.Words.{◌<?◌, any?};
ghost use Rattle.definition.specs.Refusals.{malformed};
ghost use Rattle.definition.specs.Bytes.{frame_length, day_line_length, frame_of};
ghost use Rattle.definition.specs.Writing.{frames_count, frames_from, frames_in, write_options, write_event, write_day};
ghost use Rattle.writing.specs.Writes.{Writes};

use definition::{DAY_LINE, FRAME, Options, Refusal};
use printing::{print_line, print_pieces};

// ── A line ──

// Whether a line has no room.
fn is_short(room: usize) -> bool
    ensures { result ≡ room <? day_line_length }
{
    room < DAY_LINE
}

pub fn write_options(o: Options, out: &mut [u8]) -> Result<usize, Refusal>
    ensures { Writes (write_options (length out.old) o) out.old result out.new }
{
    if is_short(out.len()) {
        return Err(Refusal::OutputShort);
    }
    let b = framing::options_bytes(o);
    print_line(&b, out);
    Ok(DAY_LINE)
}

// The line of a frame: of 24 bytes that are an event with its time.
pub fn write_event(frame: &[u8], out: &mut [u8]) -> Result<usize, Refusal>
    ensures { Writes (write_event (length out.old) (frame_of frame.now)) out.old result out.new }
{
    if is_short(out.len()) {
        return Err(Refusal::OutputShort);
    }
    if reading::malformed(reading::frame_of(frame)) {
        return Err(Refusal::Malformed);
    }
    print_line(frame, out);
    Ok(DAY_LINE)
}

// ── A day ──

// How many frames so many bytes are; a last piece that is too short counts.
#[tactic(auto, using(definition::specs::Booleans::choices), unfolding(definition::specs::Writing::frames_count))]
fn frames_count(n: usize) -> usize
    ensures { result ≡ frames_count n }
{
    n.div_ceil(FRAME)
}

// Whether one of the first n frames is no event.
fn any_malformed(frames: &[u8], n: usize) -> bool
    requires { frame_length * n ≤ length frames.now }
    ensures { result ≡ any? malformed (frames_from n frames.now) }
{
    for i in 0..n {
        if reading::malformed(reading::frame_of(&frames[i * FRAME..(i + 1) * FRAME])) {
            return true;
        }
    }
    false
}

// A whole day: its frames one behind the other, 24 bytes each.
pub fn write_day(o: Options, frames: &[u8], out: &mut [u8]) -> Result<usize, Refusal>
    ensures { Writes (write_day (length out.old) o (frames_in frames.now)) out.old result out.new }
{
    // one line more than there are frames; so no product is too large for its type
    if out.len() / DAY_LINE <= frames_count(frames.len()) {
        return Err(Refusal::OutputShort);
    }
    if frames.len() % FRAME != 0 {
        return Err(Refusal::Malformed);
    }
    let n = frames.len() / FRAME;
    if any_malformed(frames, n) {
        return Err(Refusal::Malformed);
    }
    let b = framing::options_bytes(o);
    print_line(&b, out);
    print_pieces::<FRAME>(frames, n, &mut out[DAY_LINE..]);
    Ok(DAY_LINE * (n + 1))
}
