// A run: a day's text in pieces of any cut, as far as there is room for what is said.
#![tactic(auto)]

ghost use Rattle.std.specs.Prelude.{◌≡◌, ◌≤◌, length};
ghost use Rattle.first_line.specs.Took.{line_room};
ghost use Rattle.first_line.specs.Code.{play_in, Lined};
ghost use Rattle.lines.specs.OnSlots.{on_slots};
ghost use Rattle.pieces.specs.Feed.{finish, go_on};
ghost use Rattle.runs.specs.Code.{view_in, Ready, Read};

use definition::ROOM_LINES;
use first_line::Replayer;
use pieces::Held;

// A day under way, between two pieces of its text.
#[derive(Clone, Copy)]
pub struct Session {
    pub replayer: Replayer,
    pub held: Held,
}

// How much of the text was read, and of the output written.
#[derive(Clone, Copy)]
pub struct Part {
    pub read: usize,
    pub written: usize,
}

// As much of the text as there is room for: it stops before a line only where less than ROOM_LINES bytes of the output are left.
pub fn replay_some(session: &mut Session, text: &[u8], out: &mut [u8]) -> Part
    requires { Ready session.old }
    ensures { Read (go_on on_slots (length out.old) (view_in session.old) text.now) text.now out.old out.new session.new result.read result.written }
{
    let mut at: usize = 0;
    let mut w: usize = 0;
    // Neither `for` nor a chain: a step is as long as its line, and there may be no room for it.
    while at < text.len() && ROOM_LINES <= out.len() - w {
        let e = newlines::line_end(text, at);
        let n = pieces::take_piece(
            &mut session.replayer,
            &mut session.held,
            &text[at..e],
            &mut out[w..],
        );
        w += n;
        at = e;
    }
    Part {
        read: at,
        written: w,
    }
}

// After the last byte: what is held is a line, and stays; an empty text counts as a bad first one. The answer is how much of the
// output was written.
pub fn finish(session: &mut Session, out: &mut [u8]) -> usize
    requires { Ready session.old × (line_room ≤ length out.old) }
    ensures lined { Lined (finish on_slots (play_in session.old.replayer) session.old.held) out.old out.new (play_in session.new.replayer) result }
    ensures held { session.new.held ≡ session.old.held }
{
    if session.held.is_empty() {
        return lines::take_end(&mut session.replayer, out);
    }
    lines::take_line(&mut session.replayer, session.held.as_slice(), out)
}
