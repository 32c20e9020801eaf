// Reads a day in words from standard input, twice: it is checked whole, and where there is no mistake it is written to standard
// output as a stored day. A file is read again from its start; what can't be, as a pipe, is kept in memory whole.
#![tactic(auto)]

ghost use Rattle.std.specs.Prelude.{◌≡◌};
ghost use Rattle.scribe.specs.Passing.{Passes};

use scribe::Passed;
use standard::Failure;
use std::fs::{File, metadata};
use std::io::{Cursor, Error, ErrorKind, Read, Seek, SeekFrom};

const INPUT: &[u8] = b"standard input";

// Why no day was written whole.
#[derive(Clone, Copy)]
enum Refusal {
    Usage,
    Mistakes(u64),
    Changed,
    Failed(Failure<'static>),
}

impl From<Failure<'static>> for Refusal {
    fn from(failure: Failure<'static>) -> Refusal {
        Refusal::Failed(failure)
    }
}

// A text that was checked whole and has no mistake, written from the start again. What was checked must be what is written.
fn write<R: Read + Seek>(rt: &HostRuntime, checked: Passed, again: &mut R) -> Result<u64, Refusal>
    requires { Passes checked × (checked.mistakes ≡ 0) }
{
    if let Err(e) = again.seek(SeekFrom::Start(0)) {
        return Err(Refusal::Failed(Failure::Reading(INPUT, e)));
    }
    let written = scribe::write(rt, again, INPUT)?;
    if written.mistakes == 0 && written.sent == checked.sent {
        Ok(written.sent)
    } else {
        Err(Refusal::Changed)
    }
}

// A text, checked as `from` gives it, and written as `again` does. The bytes written.
fn take<R: Read, S: Read + Seek>(
    rt: &HostRuntime,
    from: &mut R,
    again: &mut S,
) -> Result<u64, Refusal> {
    let checked = scribe::check(rt, from, INPUT)?;
    if checked.mistakes == 0 {
        write(rt, checked, again)
    } else {
        Err(Refusal::Mistakes(checked.mistakes))
    }
}

// Standard input opened once more, where it is a file. A pipe is not opened: where nothing writes to it that could wait for ever.
fn open_again(rt: &HostRuntime) -> std::io::Result<File> {
    if !metadata(rt, "/dev/stdin")?.is_file() {
        return Err(Error::from(ErrorKind::NotSeekable));
    }
    let mut file = File::open(rt, "/dev/stdin")?;
    file.seek(SeekFrom::Start(0))?;
    Ok(file)
}

// All of standard input, kept.
fn keep(rt: &HostRuntime) -> Result<u64, Refusal> {
    let mut text = Vec::new(rt.alloc());
    match rt.stdin().read_to_end(&mut text) {
        Ok(_) => take(rt, &mut text.as_slice(), &mut Cursor::new(text.as_slice())),
        Err(e) => Err(Refusal::Failed(Failure::Reading(INPUT, e))),
    }
}

fn run(rt: &HostRuntime) -> Result<u64, Refusal> {
    if standard::arg_count(rt) != 1 {
        return Err(Refusal::Usage);
    }
    match open_again(rt) {
        Ok(mut again) => take(rt, &mut rt.stdin(), &mut again),
        Err(_) => keep(rt),
    }
}

fn main(rt: HostRuntime) {
    let _ = match run(&rt) {
        Ok(n) => eprintln!(rt; "bytes written: {n}"),
        Err(Refusal::Usage) => eprintln!(rt; "usage: write_main <FILE"),
        Err(Refusal::Mistakes(n)) => eprintln!(rt; "mistakes: {n}"),
        Err(Refusal::Changed) => eprintln!(rt; "the text changed while it was read"),
        Err(Refusal::Failed(failure)) => {
            failure.tell(&rt.stderr());
            Ok(())
        }
    };
}
