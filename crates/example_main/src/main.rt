// The smallest host: a pool of the default options is marked ready, and the records that this writes are counted.
#![tactic(auto)]

use definition::{Event, FRAME, ROOM};
use pool::Pool;
use standard::Output;

fn main() {
    let made = Pool::from_bytes(&[0u8; FRAME]);
    let frame = framing::frame_bytes(Event::MarkAsReady, 0);
    let mut out = [0u8; ROOM];
    let done = entry::step(made.pool, &frame, &mut out);
    let _ = match done.outcome {
        Ok(n) => print!(Output; "{n}"),
        Err(_) => print!(Output; "refused"),
    };
}
