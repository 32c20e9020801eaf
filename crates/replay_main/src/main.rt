// Reads a day from a file, or from standard input, and writes its log to standard output.
//
//     replay_main [--budget N] [--used] [FILE]
//
// A budget of N takes at most N frames; without one, all are taken. --used tells the frames used on standard error, once the whole
// log is written.
#![tactic(auto)]

ghost use Rattle.std.specs.Prelude.{IfOk};
ghost use Rattle.stream.specs.Streams.{Plays};

use arguments::{Asked, Wrong};
use standard::Failure;
use std::env::Env;
use std::fs::File;
use std::io::{Error, ErrorKind};
use stream::Played;

// The file of a name, which has to be text.
fn open(rt: &HostRuntime, path: &[u8]) -> std::io::Result<File> {
    match std::str::from_utf8(path) {
        Ok(name) => File::open(rt, name),
        Err(_) => Err(Error::new(ErrorKind::InvalidFilename, "the name is not UTF-8")),
    }
}

// The day that the arguments ask for: that of the file, whose name is put into `path`, or of standard input.
fn replay<'a>(rt: &HostRuntime, a: Asked, path: &'a mut [u8]) -> Result<Played, Failure<'a>>
    ensures { IfOk result (Plays a.budget) }
{
    let Some(file) = a.file else {
        return stream::play(rt, &mut rt.stdin(), b"standard input", a.budget);
    };
    let n = match rt.arg(file, path) {
        Ok(n) => n,
        Err(e) => return Err(Failure::Argument(e)),
    };
    let name = &path[..n];
    match open(rt, name) {
        Ok(mut day) => stream::play(rt, &mut day, name, a.budget),
        Err(e) => Err(Failure::Reading(name, e)),
    }
}

fn tell_usage(rt: &HostRuntime, wrong: Wrong) {
    if let Wrong::Missing(e) = wrong {
        Failure::Argument(e).tell(&rt.stderr());
    }
    let _ = match wrong {
        Wrong::TooLarge => eprintln!(rt;
            "replay_main: the budget is too large: 18446744073709551615 is the largest"
        ),
        Wrong::Missing(_) | Wrong::Unknown | Wrong::LeftOut => eprintln!(rt;
            "usage: replay_main [--budget N] [--used] [FILE]"
        ),
    };
}

fn main(rt: HostRuntime) {
    let asked = match arguments::read(&rt) {
        Ok(asked) => asked,
        Err(refused) => return tell_usage(&rt, refused.why),
    };
    match replay(&rt, asked, &mut io::buffer()) {
        Ok(played) => {
            if asked.is_used {
                let _ = eprintln!(rt; "frames used: {}", played.used);
            }
        }
        Err(failure) => failure.tell(&rt.stderr()),
    }
}
