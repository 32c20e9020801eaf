// The pool without text, for the benchmark: frames on standard input, 24 bytes each, the first of them the options. Tells the
// frames refused and the records written.
#![tactic(auto)]

use definition::{FRAME, ROOM};
use frame_loop::{Unplayed, Way};
use standard::STDIN_FILENO;
use tally::Tally;

// So many bytes are read at once.
const CHUNK: usize = 2560 * FRAME;

fn play<W: Way + Drop>() -> Result<Tally, Unplayed> {
    let mut first = [0u8; FRAME];
    let n = io::read_full(STDIN_FILENO, &mut first);
    let options = reading::options_of(&first[..n]).ok_or(Unplayed::NoOptions)?;
    let mut way = W::begin(options)?;
    let mut buf = [0u8; CHUNK];
    let mut out = [0u8; ROOM];
    Ok(frame_loop::all(&mut way, &mut buf, &mut out))
}

pub fn run<W: Way + Drop, P: Print>(to: &P) {
    let _ = match play::<W>() {
        Ok(tally) => println!(to; "{tally}"),
        Err(why) => println!(to; "{why}"),
    };
}
