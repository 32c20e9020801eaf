// A day from a reader to its log on standard output.
#![tactic(auto)]

ghost use Rattle.std.specs.Prelude.{IfOk};
ghost use Rattle.first_line.specs.Took.{line_room};
ghost use Rattle.runs.specs.Code.{Ready, view_in};
ghost use Rattle.lines.specs.OnSlots.{on_slots};
ghost use Rattle.replay.specs.Calls.{feed_nil};
ghost use Rattle.stream.specs.Streams.{Feeds, Ended, feeds_more, room_is_small, Plays};

use runs::Session;
use sending::{Part, Rest, Sent, Taker};
use standard::Failure;
use std::io::Read;

// A day under way.
#[derive(Drop)]
struct Day {
    session: Session,
}

impl Taker for Day {
    ghost room = { line_room };

    ghost ready = { λ d. Ready d.session };

    ghost took = { λ d text log e. Feeds d.session text log e.session };

    ghost ended = { λ d rest used. Ended d.session rest used };

    fn go_on(&mut self, text: &[u8], out: &mut [u8]) -> Result<Part, Failure<'static>> {
        let part = session::go_on(&mut self.session, text, out);
        Ok(Part {
            read: part.read,
            written: part.written,
        })
    }

    fn finish(&mut self, out: &mut [u8]) -> Result<Rest, Failure<'static>> {
        let end = session::finish(self.session, out);
        Ok(Rest {
            tally: end.used,
            written: end.written,
        })
    }

    ghost laws = { record { none = λ d r. feed_nil on_slots (view_in d.session); more = λ d t l e u m f. feeds_more d.session t l e.session u m f.session } };

    ghost small = { room_is_small };
}

// A whole day: its bytes, the log's, and the frames used.
#[derive(Clone, Copy)]
pub struct Played {
    pub used: u64,
    pub read: u64,
    pub sent: u64,
}

// The day that a reader gives, of which messages speak by name; its log goes to `to`.
pub fn play<'a, P: Print, R: Read>(
    to: &P,
    from: &mut R,
    name: &'a [u8],
    budget: u64,
) -> Result<Played, Failure<'a>>
    ensures { IfOk result (Plays budget) }
{
    let mut day = Day {
        session: session::begin(budget),
    };
    let whole = sending::flow(&mut day, &Sent { to }, from, name)?;
    Ok(Played {
        used: whole.tally,
        read: whole.read,
        sent: whole.sent,
    })
}
