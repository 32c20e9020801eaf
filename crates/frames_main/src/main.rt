// For the benchmark: frames of 24 bytes each from standard input, written as the lines of a day by `write_day`, piece by piece; the
// options are all 0. Where a frame is no event it stops.
#![tactic(auto)]

use definition::{DAY_LINE, FRAME, Options};
use standard::{Output, STDIN_FILENO};
use std::io::{Error, ErrorKind};

const FRAMES: usize = 512;

const PIECE: usize = FRAME * FRAMES;

const LINES: usize = DAY_LINE * (FRAMES + 1);

const NO_OPTIONS: Options = Options {
    maximum: 0,
    minimum: 0,
    connecting: 0,
    idle: 0,
};

// The lines of a piece, behind the options' line where it is the first.
fn send<P: Print>(to: &P, frames: &[u8], is_first: bool, out: &mut [u8]) -> std::io::Result<()> {
    let n = writing::write_day(NO_OPTIONS, frames, out).map_err(|_| Error::from(
        ErrorKind::InvalidData,
    ))?;
    let from = if is_first { 0 } else { DAY_LINE };
    let lines = out.get(from..n).ok_or(Error::from(ErrorKind::InvalidData))?;
    to.write_all(lines)
}

fn send_all<P: Print>(to: &P) -> std::io::Result<()> {
    let mut frames = [0u8; PIECE];
    let mut out = [0u8; LINES];
    // `loop` wants a measure, and a reader has none
    for turn in 0..u64::MAX {
        let n = io::read_full(STDIN_FILENO, &mut frames);
        if n == 0 {
            break;
        }
        send(to, &frames[..n], turn == 0, &mut out)?;
    }
    Ok(())
}

// Nothing is said of why it stops.
fn main() {
    let _ = send_all(&Output);
}
