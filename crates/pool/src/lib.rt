// The pool as a value: its type, its making and its counts.
#![tactic(auto)]

ghost use Rattle.std.specs.Prelude.{◌≡◌};
ghost use Rattle.definition.specs.Bytes.{options_of};
ghost use Rattle.refinement.specs.Alike.{fresh_head};
ghost use Rattle.pool.specs.Making.{fresh_pool, not_made, making, making_from, counts_of};

use definition::{ConnectionState, Options, PoolState, QUEUE, Refusal, SLOTS};
use slots::{Head, Outcome, Status, Waiters};

#[derive(Clone, Copy)]
pub struct Slot {
    pub id: u32,
    pub generation: u32,
    pub time: u64,
    pub state: ConnectionState,
}

// The first `available_count` of `available` are slots, and the first `waiting_count` of `waiters` are waiters.
#[derive(Clone, Copy)]
pub struct Pool {
    pub head: Head,
    pub slots: [Slot; SLOTS],
    pub available: [u8; SLOTS],
    pub waiters: Waiters,
}

// Not a Result: a refused making gives a pool too (`refused_unusable`).
#[derive(Clone, Copy)]
pub struct Made {
    pub outcome: Outcome,
    pub pool: Pool,
}

#[derive(Clone, Copy)]
pub struct Counts {
    pub available: usize,
    pub lent: usize,
    pub pending: usize,
    pub waiting: usize,
}

// ── making a pool ──

// Of a pool in which nothing has happened, all of whose cells are 0.
pub fn fresh_head(o: Options) -> Head
    ensures { result ≡ fresh_head o }
{
    Head {
        options: o,
        status: Status {
            state: PoolState::New,
            generation: 0,
        },
        next_connection_id: 1,
        clock: 0,
        last_request: 0,
        serial: 0,
        total_connection_count: 0,
        pending_connection_count: 0,
        available_count: 0,
        waiting_count: 0,
    }
}

fn fresh(o: Options) -> Pool
    ensures { result ≡ fresh_pool o }
{
    let vacant = Slot {
        id: 0,
        generation: 0,
        time: 0,
        state: ConnectionState::Vacant,
    };
    Pool {
        head: fresh_head(o),
        slots: [vacant; SLOTS],
        available: [0; SLOTS],
        waiters: [0; QUEUE],
    }
}

// A refused making gives a pool that is not usable: every call of it is refused.
fn not_made(r: Refusal) -> Made
    ensures { result ≡ not_made r }
{
    Made {
        outcome: Err(r),
        pool: fresh(Options {
            maximum: 0,
            minimum: 0,
            connecting: 0,
            idle: 0,
        }),
    }
}

impl Pool {
    pub const DEFAULT_MAX_POOL_SIZE: u32 = options::DEFAULT_MAX_POOL_SIZE;

    pub const DEFAULT_MAX_CONNECTING: u32 = options::DEFAULT_MAX_CONNECTING;

    pub fn new(options: Options) -> Made
        ensures { result ≡ making options }
    {
        let o = options::with_defaults(options);
        if !options::in_range(o) {
            return not_made(Refusal::OptionsOutOfRange);
        }
        Made {
            outcome: Ok(0),
            pool: fresh(o),
        }
    }

    #[tactic(auto, unfolding(crate::specs::Making::making_from))]
    pub fn from_bytes(options: &[u8]) -> Made
        ensures { result ≡ making_from (options_of options.now) }
    {
        match reading::options_of(options) {
            Some(o) => Pool::new(o),
            None => not_made(Refusal::Malformed),
        }
    }

    pub fn counts(self) -> Counts
        ensures { result ≡ counts_of self }
    {
        let h = self.head;
        let total = h.total_connection_count as usize;
        let pending = h.pending_connection_count as usize;
        Counts {
            available: h.available_count,
            lent: total
                .saturating_sub(h.available_count)
                .saturating_sub(pending),
            pending,
            waiting: h.waiting_count,
        }
    }
}
