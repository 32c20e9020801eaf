// Frames, options and lines read, each function equal to the definition's.
#![tactic(auto, using(definition::specs::Booleans::choices))]

ghost use Rattle.std.specs.Prelude.{◌≡◌};
ghost use Rattle.definition.specs.Bytes.{plain, bare, check_in_frame, clear_frame, frame_of_fields, frame_of, options_of, frame_of_line, options_of_line};
ghost use Rattle.definition.specs.Refusals.{causeless, malformed};

use big_endian::{u32_at, u64_at};
use definition::{Event, FRAME, Frame, Options};

// ── Frames ──

// A frame with no flag and no second time.
fn plain_frame(flags: u8, second: u64, f: Frame) -> Frame
    ensures { result ≡ plain flags second f }
{
    if flags == 0 && second == 0 {
        f
    } else {
        Frame::Bad
    }
}

// A frame with no id either.
fn bare_frame(flags: u8, id: u32, second: u64, f: Frame) -> Frame
    ensures { result ≡ bare flags id second f }
{
    if id == 0 {
        plain_frame(flags, second, f)
    } else {
        Frame::Bad
    }
}

fn check_in_frame(flags: u8, id: u32, time: u64, second: u64) -> Frame
    ensures { result ≡ check_in_frame flags id time second }
{
    match flags {
        0 => Frame::Good(Event::CheckIn(id, false, false, second), time),
        1 => Frame::Good(Event::CheckIn(id, true, false, second), time),
        2 => Frame::Good(Event::CheckIn(id, false, true, second), time),
        3 => Frame::Good(Event::CheckIn(id, true, true, second), time),
        _ => Frame::Bad,
    }
}

fn clear_frame(flags: u8, id: u32, time: u64, second: u64) -> Frame
    ensures { result ≡ clear_frame flags id time second }
{
    match flags {
        0 => plain_frame(0, second, Frame::Good(Event::Clear(false, id), time)),
        1 => plain_frame(0, second, Frame::Good(Event::Clear(true, id), time)),
        _ => Frame::Bad,
    }
}

// The kinds' numbers are the file format's own. They stand here and in `framing::frame_bytes`; the theorem `frame_good` ties the two.
#[tactic(auto, using(definition::specs::Booleans::choices), unfolding(definition::specs::Bytes::frame_of_fields))]
fn fields_frame(kind: u8, flags: u8, id: u32, time: u64, second: u64) -> Frame
    ensures { result ≡ frame_of_fields kind flags id time second }
{
    match kind {
        1 => plain_frame(flags, second, Frame::Good(Event::CheckOut(id), time)),
        2 => plain_frame(flags, second, Frame::Good(Event::WarmPool(id), time)),
        3 => plain_frame(flags, second, Frame::Good(Event::Abandon(id), time)),
        4 => check_in_frame(flags, id, time, second),
        5 => clear_frame(flags, id, time, second),
        6 => bare_frame(flags, id, second, Frame::Good(Event::MarkAsReady, time)),
        7 => plain_frame(flags, second, Frame::Good(Event::Succeeded(id), time)),
        8 => plain_frame(
            flags,
            0,
            Frame::Good(Event::SucceededForPool(id, second), time),
        ),
        9 => plain_frame(flags, second, Frame::Good(Event::Failed(id), time)),
        10 => bare_frame(flags, id, second, Frame::Good(Event::Maintenance, time)),
        11 => bare_frame(flags, id, second, Frame::Good(Event::FillPool, time)),
        12 => plain_frame(flags, second, Frame::Good(Event::Pin(id), time)),
        13 => plain_frame(flags, second, Frame::Good(Event::ReturnToPinner(id), time)),
        14 => plain_frame(flags, second, Frame::Good(Event::TakeFromPinner(id), time)),
        15 => bare_frame(flags, id, second, Frame::Good(Event::Close, time)),
        _ => Frame::Bad,
    }
}

// Any bytes are a frame, if only a bad one.
#[tactic(auto, using(definition::specs::Booleans::choices), unfolding(definition::specs::Bytes::frame_of))]
pub fn frame_of(b: &[u8]) -> Frame
    ensures { result ≡ frame_of b.now }
{
    if b.len() != FRAME || b[2] != 0 || b[3] != 0 {
        return Frame::Bad;
    }
    fields_frame(b[0], b[1], u32_at(b, 4), u64_at(b, 8), u64_at(b, 16))
}

// A clear that names no cause.
pub fn causeless(e: Event) -> bool
    ensures { result ≡ causeless e }
{
    matches!(e, Event::Clear(_, 0))
}

// What no pool takes, whatever its state.
pub fn malformed(f: Frame) -> bool
    ensures { result ≡ malformed f }
{
    match f {
        Frame::Good(e, _) => causeless(e),
        Frame::Bad => true,
    }
}

// ── Options ──

#[tactic(auto, using(definition::specs::Booleans::choices), unfolding(definition::specs::Bytes::options_of))]
pub fn options_of(b: &[u8]) -> Option<Options>
    ensures { result ≡ options_of b.now }
{
    if b.len() != FRAME || u32_at(b, 0) != 0 {
        return None;
    }
    Some(Options {
        maximum: u32_at(b, 4),
        minimum: u32_at(b, 8),
        connecting: u32_at(b, 12),
        idle: u64_at(b, 16),
    })
}

// ── Lines read ──

#[tactic(auto, using(definition::specs::Booleans::choices), unfolding(definition::specs::Bytes::frame_of_line))]
pub fn line_frame(l: &[u8]) -> Frame
    ensures { result ≡ frame_of_line l.now }
{
    match digits::line_bytes(l) {
        Some(b) => frame_of(&b),
        None => Frame::Bad,
    }
}

#[tactic(auto, using(definition::specs::Booleans::choices), unfolding(definition::specs::Bytes::options_of_line))]
pub fn line_options(l: &[u8]) -> Option<Options>
    ensures { result ≡ options_of_line l.now }
{
    let b = digits::line_bytes(l)?;
    options_of(&b)
}
