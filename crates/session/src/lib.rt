// A day under way, in one value: begun, fed with text in pieces of any cut, and finished.
#![tactic(auto)]

ghost use Rattle.std.specs.Prelude.{◌≤◌, length};
ghost use Rattle.first_line.specs.Took.{line_room};
ghost use Rattle.lines.specs.OnSlots.{on_slots};
ghost use Rattle.pieces.specs.Feed.{finish};
ghost use Rattle.runs.specs.Code.{view_in, Ready};
ghost use Rattle.session.specs.Code.{Begins, Went, Finishes};

use first_line::Replayer;
use pieces::Held;
use runs::{Part, Session};

// Before the first byte: no pool yet.
pub fn begin(budget: u64) -> Session
    ensures { Begins budget result }
{
    Session {
        replayer: Replayer::new(budget),
        held: Held::new(),
    }
}

// As much of the text as there is room for. Where the output has room for one event, some of it is read.
pub fn go_on(session: &mut Session, text: &[u8], out: &mut [u8]) -> Part
    requires { Ready session.old }
    ensures { Went session.old text.now out.old out.new session.new result.read result.written }
{
    runs::replay_some(session, text, out)
}

// The frames used in all, and how much of the output was written.
#[derive(Clone, Copy)]
pub struct End {
    pub used: u64,
    pub written: usize,
}

// After the last byte.
pub fn finish(session: Session, out: &mut [u8]) -> End
    requires { Ready session × (line_room ≤ length out.old) }
    ensures { Finishes (finish on_slots (view_in session).state (view_in session).held) out.old out.new result.used result.written }
{
    let mut last = session;
    let written = runs::finish(&mut last, out);
    End {
        used: last.replayer.pace.used,
        written,
    }
}
