// A text in words that a reader gives, taken whole: its mistakes are counted and, where it is checked, told; where it is written, its
// day is sent.
#![tactic(auto)]

ghost use Rattle.std.specs.Prelude.{◌≡◌, ◌+◌, ◌≤◌, length, IfOk, ⊤};
ghost use Rattle.draft.specs.Draft.{faults_told};
ghost use Rattle.draft.specs.Steps.{end_room};
ghost use Rattle.scribe.specs.Passing.{Follows, Ended, follows_none, follows_more, room_is_small, Passes};

use draft::{Draft, Step};
use heading::Told;
use notation::Expected;
use sending::{Part, Rest, Sent, Sink, Taker};
use standard::Failure;
use std::io::Read;
use wording::Line;

// What hears of each mistake.
trait Listener {
    fn mistake(&self, line: u64, expected: Expected, found: Line);
}

// It is told on standard error.
#[derive(Drop)]
struct Teller<'a, E> {
    to: &'a E,
}

impl<'a, E: Eprint> Listener for Teller<'a, E> {
    fn mistake(&self, line: u64, expected: Expected, found: Line) {
        telling::tell(self.to, line, expected, found);
    }
}

// A text that is written was checked before.
#[derive(Clone, Copy)]
struct Silence;

impl Listener for Silence {
    fn mistake(&self, _line: u64, _expected: Expected, _found: Line) {}
}

// The bytes of a text that is checked go nowhere: they are counted. It stands here, so that what plays a day has one sink alone.
#[derive(Clone, Copy)]
pub struct Counted;

impl Sink for Counted {
    fn put(&self, before: u64, bytes: &[u8]) -> Result<u64, Failure<'static>> {
        before
            .checked_add(bytes.len() as u64)
            .ok_or(Failure::TooMany)
    }
}

// A text under way.
#[derive(Drop)]
struct Words<'a, L> {
    draft: Draft,
    mistakes: u64,
    listener: &'a L,
}

// A step's mistake, if it has one, is heard and counted.
fn note<L: Listener>(listener: &L, before: u64, s: Step) -> Result<u64, Failure<'static>>
    ensures { IfOk result (λ n. n ≡ before + length (faults_told s.number s.told)) }
{
    match s.told {
        Told::Nothing | Told::Event(_, _) => Ok(before),
        Told::Mistake(x) => {
            listener.mistake(s.number, x, s.ended);
            before.checked_add(1).ok_or(Failure::TooMany)
        }
    }
}

impl<'a, L: Listener> Taker for Words<'a, L> {
    ghost room = { end_room };

    ghost ready = { λ _. ⊤ };

    ghost took = { λ w text log x. Follows w.draft w.mistakes text log x.draft x.mistakes };

    ghost ended = { λ w rest mistakes. Ended w.draft w.mistakes rest mistakes };

    fn go_on(&mut self, text: &[u8], out: &mut [u8]) -> Result<Part, Failure<'static>> {
        let step = draft::go_on(self.draft, text, out);
        self.mistakes = note(self.listener, self.mistakes, step)?;
        self.draft = step.draft;
        Ok(Part {
            read: step.read,
            written: step.written,
        })
    }

    fn finish(&mut self, out: &mut [u8]) -> Result<Rest, Failure<'static>> {
        let last = draft::finish(self.draft, out);
        Ok(Rest {
            tally: note(self.listener, self.mistakes, last)?,
            written: last.written,
        })
    }

    ghost laws = { record { none = λ w r. follows_none w.draft w.mistakes; more = λ w t l x u m y. follows_more w.draft w.mistakes t l x.draft x.mistakes u m y.draft y.mistakes } };

    ghost small = { room_is_small };
}

// A whole text: its bytes, its mistakes, and the bytes of its day.
#[derive(Clone, Copy)]
pub struct Passed {
    pub read: u64,
    pub mistakes: u64,
    pub sent: u64,
}

// The text that a reader gives, of which messages speak by name.
fn pass<'a, L: Listener, S: Sink, R: Read>(
    listener: &L,
    to: &S,
    from: &mut R,
    name: &'a [u8],
) -> Result<Passed, Failure<'a>>
    ensures { IfOk result Passes }
{
    let mut words = Words {
        draft: draft::begin(),
        mistakes: 0,
        listener,
    };
    let whole = sending::flow(&mut words, to, from, name)?;
    Ok(Passed {
        read: whole.read,
        mistakes: whole.tally,
        sent: whole.sent,
    })
}

// A text is checked: its mistakes are told to `to`, and the bytes of its day are counted.
pub fn check<'a, E: Eprint, R: Read>(
    to: &E,
    from: &mut R,
    name: &'a [u8],
) -> Result<Passed, Failure<'a>>
    ensures { IfOk result Passes }
{
    pass(&Teller { to }, &Counted, from, name)
}

// A text is written: its day goes to `to`.
pub fn write<'a, P: Print, R: Read>(
    to: &P,
    from: &mut R,
    name: &'a [u8],
) -> Result<Passed, Failure<'a>>
    ensures { IfOk result Passes }
{
    pass(&Silence, &Sent { to }, from, name)
}
