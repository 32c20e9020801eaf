// A day in words under way: its text is taken in pieces of any cut, and what its lines tell is written.
#![tactic(auto)]

ghost use Rattle.std.specs.Prelude.{◌≡◌, ◌≤◌, ◌<◌, length};
ghost use Rattle.laying.specs.Laying.{line_room};
ghost use Rattle.draft.specs.Draft.{next_line};
ghost use Rattle.draft.specs.Steps.{paused, mistake?, end_room, Begins, EndsLine, TakesLine, GoesOn, Finishes};

use definition::DAY_LINE;
use heading::{Heading, Told};
use wording::Line;

// A line writes two lines at most.
const LINE_ROOM: usize = 2 * DAY_LINE;

// A day under way: the line under way and its number, and the heading.
#[derive(Clone, Copy)]
pub struct Draft {
    pub line: Line,
    pub number: u64,
    pub heading: Heading,
}

// What is left, how many bytes were read and written, and what was told, with the line that told it and its number.
#[derive(Clone, Copy)]
pub struct Step {
    pub draft: Draft,
    pub read: usize,
    pub written: usize,
    pub told: Told,
    pub ended: Line,
    pub number: u64,
}

pub fn begin() -> Draft
    ensures { Begins result }
{
    Draft {
        line: wording::begin(),
        number: 1,
        heading: heading::blank(),
    }
}

// Lines are counted as far as a number goes.
fn next_line(n: u64) -> u64
    ensures { result ≡ next_line n }
{
    n.saturating_add(1)
}

// The line ends, of which so many bytes were read here.
fn end_line(d: Draft, read: usize, out: &mut [u8]) -> Step
    requires { line_room ≤ length out.old }
    ensures { EndsLine d read out.old result out.new }
{
    let ended = wording::end(d.line);
    let heard = heading::hear(d.heading, grammar::says(ended.place));
    let written = laying::lay(d.heading, heard.told, out);
    Step {
        draft: Draft {
            line: wording::begin(),
            number: next_line(d.number),
            heading: heard.heading,
        },
        read,
        written,
        told: heard.told,
        ended,
        number: d.number,
    }
}

// Nothing is told.
fn paused(d: Draft, read: usize, written: usize) -> Step
    ensures { result ≡ paused d read written }
{
    Step {
        draft: d,
        read,
        written,
        told: Told::Nothing,
        ended: d.line,
        number: d.number,
    }
}

// The text's next line, or as much of it as there is.
fn take_line(d: Draft, text: &[u8], out: &mut [u8]) -> Step
    requires { (0 < length text.now) × (line_room ≤ length out.old) }
    ensures { TakesLine d text.now out.old result out.new }
{
    let e = newlines::line_end(text, 0);
    if text[e - 1] == b'\n' {
        let line = wording::read_bytes(d.line, &text[..e - 1]);
        return end_line(Draft { line, ..d }, e, out);
    }
    let line = wording::read_bytes(d.line, &text[..e]);
    paused(Draft { line, ..d }, e, 0)
}

fn is_mistake(t: Told) -> bool
    ensures { result ≡ mistake? t }
{
    matches!(t, Told::Mistake(_))
}

// As much of the text as there is room for, up to a mistake.
pub fn go_on(d: Draft, text: &[u8], out: &mut [u8]) -> Step
    ensures { GoesOn d text.now out.old result out.new }
{
    let mut draft = d;
    let mut at = 0;
    let mut w = 0;
    // Only the step says how much it reads, so no iterator gives the lines.
    while at < text.len() {
        if out.len() - w < LINE_ROOM {
            return paused(draft, at, w);
        }
        let s = take_line(draft, &text[at..], &mut out[w..]);
        draft = s.draft;
        at += s.read;
        w += s.written;
        if is_mistake(s.told) {
            return Step {
                read: at,
                written: w,
                ..s
            };
        }
    }
    paused(draft, at, w)
}

// The text's end: that of its last line, and the options' line where no event has come.
pub fn finish(d: Draft, out: &mut [u8]) -> Step
    requires { end_room ≤ length out.old }
    ensures { Finishes d out.old result out.new }
{
    let s = end_line(d, 0, out);
    let m = laying::lay_first(s.draft.heading, &mut out[s.written..]);
    Step {
        written: s.written + m,
        ..s
    }
}
