// A day's text gives its log's text in one call.
#![tactic(auto)]

ghost use Rattle.std.specs.Prelude.{length};
ghost use Rattle.replay.specs.Days.{day_in, Logged};

use definition::ROOM_LINES;

// The frames used, how much of the output was written, and whether that is the whole log.
#[derive(Clone, Copy)]
pub struct Day {
    // A flag and no Option: with too little room, too, the counts say what was written.
    pub whole: bool,
    pub used: u64,
    pub written: usize,
}

// A day's text in one call. Room for the log and ROOM_LINES bytes more is enough for all of it.
pub fn replay_day(budget: u64, text: &[u8], out: &mut [u8]) -> Day
    ensures { Logged (day_in (length out.old) budget text.now) out.old out.new result }
{
    let mut s = session::begin(budget);
    let p = session::go_on(&mut s, text, out);
    let n = p.written;
    if p.read == text.len() && ROOM_LINES <= out.len() - n {
        let k = session::finish(s, &mut out[n..]);
        return Day {
            whole: true,
            used: k.used,
            written: n + k.written,
        };
    }
    Day {
        whole: false,
        used: s.replayer.pace.used,
        written: n,
    }
}
