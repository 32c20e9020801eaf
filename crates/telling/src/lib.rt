// What is said of a mistake in a day in words: its line, what should have come, and what came.
#![tactic(auto)]

use notation::Expected;
use std::fmt;
use wording::Line;

// So much of a word is shown.
const SHOWN: usize = 20;

// What should have come.
#[derive(Clone, Copy)]
struct Wanted(Expected);

impl fmt::Display for Wanted {
    fn fmt<W: fmt::Write>(&self, f: &mut fmt::Formatter<W>) -> fmt::Result {
        f.write_str(match self.0 {
            Expected::TimeOrOption => {
                "a time, or one of maximum, minimum, max-connecting, idle-limit"
            }
            Expected::Value => "a number up to 4294967295",
            Expected::IdleLimit => "a number up to 18446744073709551615",
            Expected::Kind => {
                "an event: check-out, warm, abandon, check-in, clear, ready, succeeded, failed, maintenance, fill, pin, return, take or close"
            }
            Expected::Request => "the number of a request, up to 4294967295",
            Expected::Connection => "the number of a connection, up to 4294967295",
            Expected::Cause => "a cause, from 1 to 4294967295",
            Expected::MarkOrLetGo => {
                "errored or executing, each once at most, or let-go and a time"
            }
            Expected::LetGo => "the time it was let go, up to 18446744073709551615",
            Expected::TimeoutOrEnd => "timeout, or the end of the line",
            Expected::OpenedOrEnd => "opened and a time, or the end of the line",
            Expected::Opened => "the time it was opened, up to 18446744073709551615",
            Expected::End => "the end of the line",
            Expected::NoOption => "an event: options stand before the first one",
            Expected::OtherOption => "another option: this one was given before",
        })
    }
}

// What came in its place.
#[derive(Clone, Copy)]
struct Found(Line);

impl fmt::Display for Found {
    fn fmt<W: fmt::Write>(&self, f: &mut fmt::Formatter<W>) -> fmt::Result {
        let word = self.0.word.as_slice();
        if word.is_empty() {
            return f.write_str(", found the end of the line");
        }
        f.write_str(", found '")?;
        for c in word.iter().take(SHOWN) {
            f.write_char(shown(*c))?;
        }
        f.write_str(if SHOWN < word.len() { "...'" } else { "'" })
    }
}

// A byte as it can be shown on any terminal.
fn shown(c: u8) -> char {
    if c.is_ascii_graphic() {
        char::from(c)
    } else {
        '?'
    }
}

// Whether the line's words were good, and only what it told was not.
fn is_of_the_day(x: Expected) -> bool {
    matches!(x, Expected::NoOption | Expected::OtherOption)
}

// A message that can't be written is left out.
pub fn tell<E: Eprint>(to: &E, number: u64, x: Expected, l: Line) {
    let wanted = Wanted(x);
    let _ = if is_of_the_day(x) {
        eprintln!(to; "line {number}: expected {wanted}")
    } else {
        eprintln!(to; "line {number}: expected {wanted}{}", Found(l))
    };
}
