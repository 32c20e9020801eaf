// What a program is given, its three streams and its arguments, what it says, and why it ends before it is done.
#![tactic(auto)]

use std::env::{Env, FillError};
use std::fmt::{self, Display, Formatter};
use std::io::{Cursor, Error, ErrorKind, Write};

pub const STDIN_FILENO: i32 = 0;

pub const STDOUT_FILENO: i32 = 1;

pub const STDERR_FILENO: i32 = 2;

// The system's numbers for a name that is too long, and for an argument that isn't one.
const ENAMETOOLONG: i32 = 36;

const EINVAL: i32 = 22;

// The most bytes of an error's text that are told.
const MOST_TEXT: usize = 512;

// ── Streams ──

// Of a program that is handed no runtime, by the descriptor: write is then all that it reaches of the system (docs/TRUST.md). A text
// goes out piece by piece, so that none is too long.
#[derive(Clone, Copy)]
struct Stream(i32);

impl fmt::Write for Stream {
    fn write_str(&mut self, text: &str) -> fmt::Result {
        self.write_all(text.as_bytes()).map_err(|_| fmt::Error)
    }
}

impl Print for Stream {
    fn print<D: Display + Drop>(&self, value: D) -> std::io::Result<()> {
        match Formatter::new(*self).write(&value) {
            Ok(()) => Ok(()),
            Err(fmt::Error) => Err(Error::from(ErrorKind::WriteZero)),
        }
    }

    fn println<D: Display + Drop>(&self, value: D) -> std::io::Result<()> {
        self.print(value)?;
        self.write_all(b"\n")
    }

    fn write_all(&self, bytes: &[u8]) -> std::io::Result<()> {
        if io::write_all(self.0, bytes) {
            Ok(())
        } else {
            Err(Error::from(ErrorKind::WriteZero))
        }
    }
}

// Standard output of such a program.
#[derive(Clone, Copy)]
pub struct Output;

impl Print for Output {
    fn print<D: Display + Drop>(&self, value: D) -> std::io::Result<()> {
        Stream(STDOUT_FILENO).print(value)
    }

    fn println<D: Display + Drop>(&self, value: D) -> std::io::Result<()> {
        Stream(STDOUT_FILENO).println(value)
    }

    fn write_all(&self, bytes: &[u8]) -> std::io::Result<()> {
        Stream(STDOUT_FILENO).write_all(bytes)
    }
}

// Standard error of such a program.
#[derive(Clone, Copy)]
pub struct ErrorOutput;

impl Print for ErrorOutput {
    fn print<D: Display + Drop>(&self, value: D) -> std::io::Result<()> {
        Stream(STDERR_FILENO).print(value)
    }

    fn println<D: Display + Drop>(&self, value: D) -> std::io::Result<()> {
        Stream(STDERR_FILENO).println(value)
    }

    fn write_all(&self, bytes: &[u8]) -> std::io::Result<()> {
        Stream(STDERR_FILENO).write_all(bytes)
    }
}

impl Eprint for ErrorOutput {
    fn eprint<D: Display + Drop>(&self, value: D) -> std::io::Result<()> {
        self.print(value)
    }

    fn eprintln<D: Display + Drop>(&self, value: D) -> std::io::Result<()> {
        self.println(value)
    }
}

// ── Why a program ends ──

// Why a program ends before it is done.
#[derive(Clone, Copy)]
pub enum Failure<'a> {
    // the reader of that name
    Reading(&'a [u8], Error),
    // standard output
    Writing(Error),
    Argument(FillError),
    // more than a count can tell: nothing is said of it
    TooMany,
}

impl<'a> Failure<'a> {
    // A line: what failed, a colon and the error's text. A message that can't be written is left out.
    pub fn tell<P: Print>(&self, to: &P) {
        let _ = match self {
            Failure::Reading(name, error) => tell(to, name, error),
            Failure::Writing(error) => tell(to, b"standard output", error),
            Failure::Argument(FillError::TooLong) => tell(
                to,
                b"argument",
                &Error::from_raw_os_error(ENAMETOOLONG),
            ),
            Failure::Argument(FillError::NotPresent) => tell(
                to,
                b"argument",
                &Error::from_raw_os_error(EINVAL),
            ),
            Failure::TooMany => Ok(()),
        };
    }
}

// The system's words for an error, without its number, which stands behind them in brackets.
fn words(text: &str) -> &str {
    match text.rsplit_once(" (os error ") {
        Some((words, _)) => words,
        None => text,
    }
}

fn tell<P: Print>(to: &P, what: &[u8], error: &Error) -> std::io::Result<()> {
    let mut said = [0u8; MOST_TEXT];
    let mut text = Cursor::new(&mut said[..]);
    let _ = write!(text, "{error}");
    let n = (text.position() as usize).min(MOST_TEXT);
    let text = std::str::from_utf8(&said[..n]).unwrap_or("");
    let _ = to.write_all(what);
    println!(to; ": {}", words(text))
}

// How many arguments there are, the program's name among them.
pub fn arg_count<E: Env>(env: &E) -> usize {
    for i in 0..usize::MAX {
        if let Err(FillError::NotPresent) = env.arg(i, &mut []) {
            return i;
        }
    }
    usize::MAX
}
