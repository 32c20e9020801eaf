// Where a run is, and its first line: options that make the pool, or end the run.
#![tactic(auto)]

ghost use Rattle.std.specs.Prelude.{◌≡◌, ◌≤◌, length, replicate};
ghost use Rattle.definition.specs.Records.{log_line_length};
ghost use Rattle.definition.specs.Refusals.{enough_room};
ghost use Rattle.definition.specs.Bytes.{options_of_line};
ghost use Rattle.slots.specs.View.{pool_in};
ghost use Rattle.refinement.specs.Alike.{fresh_slots};
ghost use Rattle.first_line.specs.Took.{line_room};
ghost use Rattle.first_line.specs.OnSlots.{badly, options, begun, no_options};
ghost use Rattle.first_line.specs.Code.{play_in, Lined};

use definition::{LINE, Options, QUEUE, ROOM, Refusal, SLOTS};
use slots::ConnectionPoolWorker;

#[derive(Clone, Copy)]
pub enum Phase {
    First,
    Going,
    Ended,
}

// Where a run is: before its options line, going, or ended by bad options; and the frames that it has used, and may use.
#[derive(Clone, Copy)]
pub struct Pace {
    pub phase: Phase,
    pub used: u64,
    pub budget: u64,
}

// A run: the pool counts only while it is going; the scratch is the buffer that events lay their records in.
#[derive(Clone, Copy)]
pub struct Replayer {
    pub pace: Pace,
    pub worker: ConnectionPoolWorker,
    pub scratch: [u8; ROOM],
}

// A pool in which nothing has happened.
fn fresh(o: Options) -> ConnectionPoolWorker
    ensures { pool_in result ≡ fresh_slots o }
{
    ConnectionPoolWorker {
        head: pool::fresh_head(o),
        ids: [0; SLOTS],
        generations: [0; SLOTS],
        times: [0; SLOTS],
        states: [0; SLOTS],
        available: [0; SLOTS],
        waiters: [0; QUEUE],
    }
}

impl Replayer {
    // Before the options line, with something in the pool's place.
    pub fn new(budget: u64) -> Self
        ensures { play_in result ≡ begun budget (fresh_slots no_options) (replicate enough_room 0) }
    {
        Replayer {
            pace: Pace {
                phase: Phase::First,
                used: 0,
                budget,
            },
            worker: fresh(Options {
                maximum: 0,
                minimum: 0,
                connecting: 0,
                idle: 0,
            }),
            scratch: [0; ROOM],
        }
    }
}

// Bad options are told as line 1, and end the run.
pub fn bad_options(r: &mut Replayer, refusal: Refusal, out: &mut [u8]) -> usize
    requires { log_line_length ≤ length out.old }
    ensures { Lined (badly (play_in r.old) refusal) out.old out.new (play_in r.new) result }
{
    refusals::print_refusal(refusal, 1, out);
    r.pace.phase = Phase::Ended;
    LINE
}

// The first line: options that make a pool, or the run ends. The answer is how much of the output was written.
pub fn take_first(r: &mut Replayer, line: &[u8], out: &mut [u8]) -> usize
    requires { line_room ≤ length out.old }
    ensures { Lined (options (play_in r.old) (options_of_line line.now)) out.old out.new (play_in r.new) result }
{
    match reading::line_options(line) {
        Some(p) => {
            let options = options::with_defaults(p);
            if options::in_range(options) {
                r.worker = fresh(options);
                r.pace.phase = Phase::Going;
                0
            } else {
                bad_options(r, Refusal::OptionsOutOfRange, out)
            }
        }
        None => bad_options(r, Refusal::Malformed, out),
    }
}
