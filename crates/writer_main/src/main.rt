// Has a day written with every room that a host may lend, and counts what was answered.
//
// Standard input is a day of 48 digits and a newline each, the first line its options. Each answer is held against the room and the
// lines that were read, and what was lent must be as it was where nothing is to be written: `WRONG` tells where that is not so. Then
// comes the day as it was written.
#![tactic(auto)]

ghost use Rattle.std.specs.Prelude.{◌≤◌, length};
ghost use Rattle.io.specs.Counts.{IsPrefixLen};

use definition::{DAY_LINE, FRAME, Frame, Options, Refusal};
use standard::{Output, STDIN_FILENO};
use std::fmt;

// The most lines of a day. The bytes of their frames and their text are on the stack, which holds 8 MB.
const LINES: usize = 100001;

const DAY: usize = LINES * FRAME;

const ROOM: usize = LINES * DAY_LINE + DAY_LINE + 1;

// A day of more lines is not written with the rooms that are much too small.
const FEW_LINES: usize = 101;

// ── What is said ──

#[derive(Clone, Copy)]
enum Answer {
    Short,
    Malformed,
    Written,
}

#[derive(Clone, Copy, Default)]
struct Seen {
    short: u64,
    malformed: u64,
    written: u64,
}

impl Seen {
    fn count(&mut self, answer: Answer) {
        match answer {
            Answer::Short => self.short = self.short.wrapping_add(1),
            Answer::Malformed => self.malformed = self.malformed.wrapping_add(1),
            Answer::Written => self.written = self.written.wrapping_add(1),
        }
    }
}

impl fmt::Display for Seen {
    fn fmt<W: fmt::Write>(&self, f: &mut fmt::Formatter<W>) -> fmt::Result {
        write!(f, "{} refused as 1, ", self.short)?;
        write!(f, "{} refused as 2, ", self.malformed)?;
        write!(f, "{} written", self.written)
    }
}

// ── What is read ──

// An event's bytes are made anew from what was read of them.
fn bytes_in(line: &[u8; DAY_LINE]) -> [u8; FRAME] {
    match reading::line_frame(line) {
        Frame::Good(e, time) => framing::frame_bytes(e, time),
        Frame::Bad => {
            if line[2 * FRAME] == b'\n' {
                digits::raw_bytes(line)
            } else {
                [0; FRAME]
            }
        }
    }
}

// How many bytes the lines of standard input are.
fn read_day(day: &mut [u8]) -> usize
    ensures { IsPrefixLen result day.new }
{
    let most = day.len() / FRAME;
    for i in 0..most {
        let mut line = [0u8; DAY_LINE];
        if io::read_full(STDIN_FILENO, &mut line) < DAY_LINE {
            return i * FRAME;
        }
        day[i * FRAME..(i + 1) * FRAME].copy_from_slice(&bytes_in(&line));
    }
    most * FRAME
}

// ── What is lent ──

// No digit and no newline.
fn pattern(i: usize) -> u8 {
    103 + (i % 16) as u8
}

fn fill(out: &mut [u8]) {
    for (i, b) in out.iter_mut().enumerate() {
        *b = pattern(i);
    }
}

// All are looked at, so that it is done at once for 16.
fn is_filled(out: &[u8], from: usize) -> bool {
    (from..out.len()).fold(true, |ok, i| ok & (out[i] == pattern(i)))
}

// Whether the lines at the front have these bytes.
fn is_text(out: &[u8], bytes: &[u8]) -> bool {
    bytes.len() / FRAME <= out.len() / DAY_LINE
        && bytes
            .chunks_exact(FRAME)
            .zip(out.chunks_exact(DAY_LINE))
            .all(|(frame, line)| digits::line_bytes(line).is_some_and(|b| b.as_slice() == frame))
}

// ── What is answered ──

// A writer as it is called with the room that is lent.
type Written = Result<usize, Refusal>;

// The whole text has so many bytes, and there was room for so many. None: the answer is wrong.
fn judged(w: Written, whole: usize, room: usize, bytes: &[u8], out: &[u8]) -> Option<Answer> {
    match w {
        Err(Refusal::OutputShort) if room < whole && is_filled(out, 0) => Some(Answer::Short),
        Err(Refusal::Malformed) if whole <= room && is_filled(out, 0) => Some(Answer::Malformed),
        Ok(n) if whole <= room && n == whole && is_text(out, bytes) && is_filled(out, n) => Some(
            Answer::Written,
        ),
        _ => None,
    }
}

// ── Calls ──

// Calls with each room from the least on; the last byte is never lent.
fn try_rooms<P: Print, W: Fn(&mut [u8]) -> Written>(
    to: &P,
    seen: &mut Seen,
    write: W,
    bytes: &[u8],
    whole: usize,
    least: usize,
    out: &mut [u8],
)
    requires { W.IsAlwaysCallable write }
{
    for room in least..out.len() {
        fill(out);
        let w = write(&mut out[..room]);
        match judged(w, whole, room, bytes, out) {
            Some(answer) => seen.count(answer),
            None => {
                let _ = println!(to; "WRONG with room for {room}");
            }
        }
    }
}

// ── The day ──

fn least_room(day: &[u8], whole: usize) -> usize
    requires { 1 ≤ whole }
{
    if FEW_LINES * FRAME < day.len() {
        whole - 1
    } else {
        0
    }
}

fn try_options<P: Print>(to: &P, o: Options, day: &[u8], out: &mut [u8])
    requires { (24 ≤ length day.now) × (4900099 ≤ length out.old) }
{
    let mut seen = Seen::default();
    try_rooms(
        to,
        &mut seen,
        |room: &mut [u8]| writing::write_options(o, room),
        &day[..FRAME],
        DAY_LINE,
        0,
        &mut out[..2 * DAY_LINE + 1],
    );
    let _ = println!(to; "options: {seen}");
}

fn try_events<P: Print>(to: &P, day: &[u8], out: &mut [u8])
    requires { (24 ≤ length day.now) × (4900099 ≤ length out.old) }
{
    let mut seen = Seen::default();
    let out = &mut out[..2 * DAY_LINE + 1];
    for frame in day[FRAME..].chunks_exact(FRAME) {
        try_rooms(
            to,
            &mut seen,
            |room: &mut [u8]| writing::write_event(frame, room),
            frame,
            DAY_LINE,
            least_room(day, DAY_LINE),
            out,
        );
    }
    let _ = println!(to; "events: {seen}");
}

fn try_day<P: Print>(to: &P, o: Options, day: &[u8], whole: usize, out: &mut [u8])
    requires { (24 ≤ length day.now) × (1 ≤ whole) × (whole ≤ 4900049) × (4900099 ≤ length out.old) }
{
    let mut seen = Seen::default();
    try_rooms(
        to,
        &mut seen,
        |room: &mut [u8]| writing::write_day(o, &day[FRAME..], room),
        day,
        whole,
        least_room(day, whole),
        &mut out[..whole + DAY_LINE + 1],
    );
    let _ = println!(to; "day: {seen}");
}

// The day without the last bytes of its last event.
fn try_cuts<P: Print>(to: &P, o: Options, day: &[u8], whole: usize, out: &mut [u8])
    requires { (1 ≤ whole) × (whole ≤ 4900049) × (4900099 ≤ length out.old) }
{
    if day.len() < 2 * FRAME {
        return;
    }
    let mut seen = Seen::default();
    for cut in 1..FRAME {
        let events = &day[FRAME..day.len() - cut];
        try_rooms(
            to,
            &mut seen,
            |room: &mut [u8]| writing::write_day(o, events, room),
            day,
            whole,
            whole - 1,
            &mut out[..whole + 1],
        );
    }
    let _ = println!(to; "cut: {seen}");
}

// The day as it is written where there is room.
fn show<P: Print>(to: &P, o: Options, day: &[u8], out: &mut [u8])
    requires { 24 ≤ length day.now }
{
    if let Ok(n) = writing::write_day(o, &day[FRAME..], out) {
        if let Some(text) = out.get(..n) {
            let _ = to.write_all(text);
        }
    }
}

fn run<P: Print>(to: &P, o: Options, day: &[u8], out: &mut [u8])
    requires { (24 ≤ length day.now) × (length day.now ≤ 2400024) × (4900099 ≤ length out.old) }
{
    let whole = day.len() / FRAME * DAY_LINE;
    try_options(to, o, day, out);
    try_events(to, day, out);
    try_day(to, o, day, whole, out);
    try_cuts(to, o, day, whole, out);
    show(to, o, day, out);
}

// Both have the lengths of `main`; a lent array does not tell its own, so they are looked at again.
fn start<P: Print>(to: &P, day: &mut [u8], out: &mut [u8]) {
    let n = read_day(day);
    if DAY < n || out.len() < ROOM {
        return;
    }
    let options = if n < FRAME {
        None
    } else {
        reading::options_of(&day[..FRAME])
    };
    match options {
        Some(o) => run(to, o, &day[..n], out),
        None => {
            let _ = println!(to; "no options");
        }
    }
}

// Apart from `main`, so that no proof has to look into millions of zeros.
fn lend<P: Print>(to: &P, day: &mut [u8; DAY], out: &mut [u8; ROOM]) {
    start(to, day, out);
}

fn main() {
    let mut day = [0u8; DAY];
    let mut out = [0u8; ROOM];
    lend(&Output, &mut day, &mut out);
}
