// A text from a reader, taken whole by what lays bytes for it, and these bytes sent. Bytes are counted on both sides, so that a
// contract can tell one left out or written twice.
#![tactic(auto)]

ghost use Rattle.std.specs.Prelude.{◌≡◌, ◌≤◌, ℕ, List, [], ◌++◌, ◌+◌, length, take, IfOk};
ghost use Rattle.sending.specs.Flow.{Laws, Takes, Closes, Drains, Ends, Flows};

use standard::Failure;
use std::io::{Error, ErrorKind, Read};

// ── Where bytes go ──

pub trait Sink {
    // Behind `before` others. No run sends more than a count can tell.
    fn put(&self, before: u64, bytes: &[u8]) -> Result<u64, Failure<'static>>
        ensures { IfOk result (λ n. n ≡ before + length bytes.now) };
}

// To standard output. Nothing else writes a log or a day.
#[derive(Drop)]
pub struct Sent<'a, P> {
    pub to: &'a P,
}

impl<'a, P: Print> Sink for Sent<'a, P> {
    fn put(&self, before: u64, bytes: &[u8]) -> Result<u64, Failure<'static>> {
        let Some(count) = before.checked_add(bytes.len() as u64) else {
            return Err(Failure::Writing(Error::from(ErrorKind::FileTooLarge)));
        };
        match self.to.write_all(bytes) {
            Ok(()) => Ok(count),
            Err(e) => Err(Failure::Writing(e)),
        }
    }
}

// ── What takes a text ──

// How much of a piece was read, and of the output written.
#[derive(Clone, Copy)]
pub struct Part {
    pub read: usize,
    pub written: usize,
}

// What a whole text comes to, and how much of the output was written.
#[derive(Clone, Copy)]
pub struct Rest {
    pub tally: u64,
    pub written: usize,
}

// It takes a text in pieces of any cut, and lays bytes for it.
pub trait Taker {
    // the output that a step wants, at which values a step may be taken, the bytes laid for a text, and those laid at its end
    ghost room: { ℕ };

    ghost ready: { Self → Type 0 };

    ghost took: { Self → List ℕ → List ℕ → Self → Type 0 };

    ghost ended: { Self → List ℕ → ℕ → Type 0 };

    fn go_on(&mut self, text: &[u8], out: &mut [u8]) -> Result<Part, Failure<'static>>
        requires ready { ready self.old }
        requires room { room ≤ length out.old }
        ensures { IfOk result (λ p. Takes ready took self.old text.now out.new p self.new) };

    fn finish(&mut self, out: &mut [u8]) -> Result<Rest, Failure<'static>>
        requires ready { ready self.old }
        requires room { room ≤ length out.old }
        ensures { IfOk result (λ e. Closes ended self.old out.new e) };

    ghost laws: { Laws ready took };

    ghost small: { room ≤ 65536 };
}

// ── A text ──

// What a whole text comes to, its bytes, and those that were sent for it.
#[derive(Clone, Copy)]
pub struct Flowed {
    pub tally: u64,
    pub read: u64,
    pub sent: u64,
}

// All of a piece.
fn drain<T: Taker, S: Sink>(
    taker: &mut T,
    to: &S,
    before: u64,
    text: &[u8],
    out: &mut [u8],
) -> Result<u64, Failure<'static>>
    requires ready { T.ready taker.old }
    requires room { T.room ≤ length out.old }
    ensures { IfOk result (λ n. Drains T.ready T.took taker.old before text.now taker.new n) }
{
    let mut sent = before;
    let mut at: usize = 0;
    // Only the taker says how much it reads, so no iterator gives the steps.
    while at < text.len() {
        let part = taker.go_on(&text[at..], out)?;
        sent = to.put(sent, &out[..part.written])?;
        at += part.read;
    }
    Ok(sent)
}

// The text's end, behind `read` bytes.
fn end<T: Taker, S: Sink>(
    taker: &mut T,
    to: &S,
    read: u64,
    sent: u64,
    out: &mut [u8],
) -> Result<Flowed, Failure<'static>>
    requires ready { T.ready taker.old }
    requires room { T.room ≤ length out.old }
    ensures { IfOk result (λ r. Ends T.ended taker.old read sent r) }
{
    let end = taker.finish(out)?;
    let sent = to.put(sent, &out[..end.written])?;
    Ok(Flowed {
        tally: end.tally,
        read,
        sent,
    })
}

// The text that a reader gives, of which messages speak by name, and what is sent for it.
pub fn flow<'a, T: Taker, S: Sink, R: Read>(
    taker: &mut T,
    to: &S,
    from: &mut R,
    name: &'a [u8],
) -> Result<Flowed, Failure<'a>>
    requires { T.ready taker.old }
    ensures { IfOk result (λ r. Flows T.ended T.took taker.old r) }
{
    let mut buf = io::large_buffer();
    let mut out = io::large_buffer();
    let mut read: u64 = 0;
    let mut sent: u64 = 0;
    loop {
        let n = match from.read(&mut buf) {
            Ok(n) => n,
            Err(e) => return Err(Failure::Reading(name, e)),
        };
        if n == 0 {
            return end(taker, to, read, sent, &mut out);
        }
        let Some(more) = read.checked_add(n as u64) else {
            return Err(Failure::TooMany);
        };
        read = more;
        sent = drain(taker, to, sent, &buf[..n], &mut out)?;
    }
}
