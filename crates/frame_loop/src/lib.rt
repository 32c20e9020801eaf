// Frame after frame, to the end of the input, for the benchmark.
//
// A program plays in one of two ways, and each has a loop of its own, in which the compiler inlines that way alone. That is why
// there are two programs: beside the entry point the engine would not be inlined into the loop, and take 1.6 to 3 times as long.
#![tactic(auto)]

ghost use Rattle.std.specs.Prelude.{◌≡◌, IfOk, ⊤};
ghost use Rattle.definition.specs.Bytes.{frame_of};
ghost use Rattle.slots.specs.View.{pool_in};
ghost use Rattle.slots.specs.Call.{world, call};
ghost use Rattle.refinement.specs.Stands.{Formed};
ghost use Rattle.entry.specs.Entry.{entered, entry};

use definition::{FRAME, Options, QUEUE, SLOTS};
use pool::Pool;
use slots::{ConnectionPoolWorker, Outcome};
use standard::STDIN_FILENO;
use std::fmt;
use tally::Tally;

// Why no frame is played.
#[derive(Clone, Copy)]
pub enum Unplayed {
    NoOptions,
    OutOfRange,
}

impl fmt::Display for Unplayed {
    fn fmt<W: fmt::Write>(&self, f: &mut fmt::Formatter<W>) -> fmt::Result {
        f.write_str(match self {
            Unplayed::NoOptions => "no options",
            Unplayed::OutOfRange => "options out of range",
        })
    }
}

pub trait Way {
    // what it plays on
    ghost ready: { Self → Type 0 };

    // A pool of these options, in which nothing has happened.
    fn begin(options: Options) -> Result<Self, Unplayed>
        ensures { IfOk result ready };

    fn play(&mut self, frame: &[u8], out: &mut [u8]) -> Outcome
        requires { ready self.old }
        ensures { ready self.new };
}

// The entry point takes any pool by value, tests it and gives it back.
impl Way for Pool {
    ghost ready = { λ _. ⊤ };

    fn begin(options: Options) -> Result<Self, Unplayed> {
        let made = Pool::new(options);
        match made.outcome {
            Ok(_) => Ok(made.pool),
            Err(_) => Err(Unplayed::NoOptions),
        }
    }

    fn play(&mut self, frame: &[u8], out: &mut [u8]) -> Outcome
        ensures ready { ⊤ }
        ensures entered { entered self.new out.new result ≡ entry self.old frame.now out.old }
    {
        let stepped = entry::step(*self, frame, out);
        *self = stepped.pool;
        stepped.outcome
    }
}

// The engine keeps the columns, and does not test their structure: it is formed, and stays so.
impl Way for ConnectionPoolWorker {
    ghost ready = { λ worker. Formed (pool_in worker) };

    fn begin(options: Options) -> Result<Self, Unplayed> {
        let o = options::with_defaults(options);
        if !options::in_range(o) {
            return Err(Unplayed::OutOfRange);
        }
        Ok(ConnectionPoolWorker {
            head: pool::fresh_head(o),
            ids: [0; SLOTS],
            generations: [0; SLOTS],
            times: [0; SLOTS],
            states: [0; SLOTS],
            available: [0; SLOTS],
            waiters: [0; QUEUE],
        })
    }

    fn play(&mut self, frame: &[u8], out: &mut [u8]) -> Outcome
        requires { Formed (pool_in self.old) }
        ensures formed { Formed (pool_in self.new) }
        ensures called { world (pool_in self.new) out.new result ≡ call (pool_in self.old) out.old (frame_of frame.now) }
    {
        event::call(self, out, reading::frame_of(frame))
    }
}

// All that standard input has, read into `buf` piece by piece. A proved loop has to end, so there are only so many turns as no run
// uses up.
pub fn all<W: Way>(way: &mut W, buf: &mut [u8], out: &mut [u8]) -> Tally
    requires { W.ready way.old }
{
    let mut tally = Tally::default();
    for _ in 0..u64::MAX {
        let n = io::read_full(STDIN_FILENO, buf);
        if n == 0 {
            break;
        }
        for frame in buf[..n].chunks_exact(FRAME) {
            tally.count(way.play(frame, out));
        }
    }
    tally
}
