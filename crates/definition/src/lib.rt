// What the definition and the code share: the numbers, and the types, which the definition in specs/ sees as they stand.

#![tactic(auto)]

ghost use Rattle.std.specs.Prelude.{◌≡◌};
ghost use Rattle.definition.specs.Pool.{state_no, state_of_no};
ghost use Rattle.definition.specs.Records.{reason_no};
ghost use Rattle.definition.specs.Refusals.{refusal_no};

// ── Numbers ──

// The most connections that a pool may have, and the most requests that may wait. All numbers below follow from these two
// and from a record's length; specs/ has them too, in Pool and Refusals, and the proofs tie the two.
pub const SLOTS: usize = 64;

pub const QUEUE: usize = 256;

// A record in bytes, and as a line of the log: two digits a byte, and a newline.
pub const RECORD: usize = 16;

pub const LINE: usize = 2 * RECORD + 1;

// A frame in bytes, and as a line of a day.
pub const FRAME: usize = 24;

pub const DAY_LINE: usize = 2 * FRAME + 1;

// The room that any event's records fit in. Closing writes most: one for each connection and each waiter, and one more. The
// room is the next power of two, which the constants between find by filling all bits below the highest.
const NEEDED: usize = RECORD * (SLOTS + QUEUE + 1) - 1;

const FILLED_2: usize = NEEDED | NEEDED >> 1;

const FILLED_4: usize = FILLED_2 | FILLED_2 >> 2;

const FILLED_8: usize = FILLED_4 | FILLED_4 >> 4;

const FILLED_16: usize = FILLED_8 | FILLED_8 >> 8;

pub const ROOM: usize = (FILLED_16 | FILLED_16 >> 16) + 1;

// The same, as lines.
pub const ROOM_LINES: usize = ROOM / RECORD * LINE;

// An event may take ids while the next one is at most this, and then takes at most one for each slot and one more.
pub const LAST_NEXT_ID: u32 = 4294967295 - (2 * SLOTS as u32 - 1);

pub const MOST_NEXT_ID: u32 = LAST_NEXT_ID + SLOTS as u32 + 1;

// The most that a record can say of an age.
pub const MOST_AGE: u32 = 4294967295;

// ── Types ──

// The fifteen kinds of event, in order of their numbers.
#[derive(Clone, Copy)]
pub enum Event {
    // request
    CheckOut(u32),
    // request
    WarmPool(u32),
    // request
    Abandon(u32),
    // connection, errored, executing, when it was let go
    CheckIn(u32, bool, bool, u64),
    // network timeout, cause
    Clear(bool, u32),
    MarkAsReady,
    // connection
    Succeeded(u32),
    // connection, when it was opened
    SucceededForPool(u32, u64),
    // connection
    Failed(u32),
    Maintenance,
    FillPool,
    // connection
    Pin(u32),
    // connection
    ReturnToPinner(u32),
    // connection
    TakeFromPinner(u32),
    Close,
}

// What 24 bytes say: an event and its time, or nothing that is an event.
// Not an Option: a bad frame is a frame too, which every pool takes and refuses as 2, and of which the definition's theorems speak.
#[derive(Clone, Copy)]
pub enum Frame {
    Good(Event, u64),
    Bad,
}

// Of a pool: most connections, fewest, most pending at once, and the idle limit in milliseconds, 0 for never.
#[derive(Clone, Copy)]
pub struct Options {
    pub maximum: u32,
    pub minimum: u32,
    pub connecting: u32,
    pub idle: u64,
}

#[derive(Clone, Copy)]
pub enum PoolState {
    New,
    // cause
    Paused(u32),
    Ready,
    Closed,
}

#[derive(Clone, Copy)]
pub enum PinnedState {
    InUse,
    Returned,
}

// What a pending connection is established for.
#[derive(Clone, Copy)]
pub enum Purpose {
    Request,
    Background,
}

// A slot that holds no connection is Vacant.
#[derive(Clone, Copy)]
pub enum ConnectionState {
    Vacant,
    CheckedIn,
    CheckedOut,
    Pinned(PinnedState),
    Pending(Purpose),
}

// A state's number, as it stands in a column.
impl From<ConnectionState> for u8 {
    fn from(state: ConnectionState) -> u8
        ensures { result ≡ state_no state }
    {
        match state {
            ConnectionState::Vacant => 0,
            ConnectionState::CheckedIn => 1,
            ConnectionState::CheckedOut => 2,
            ConnectionState::Pinned(PinnedState::InUse) => 3,
            ConnectionState::Pinned(PinnedState::Returned) => 4,
            ConnectionState::Pending(Purpose::Request) => 5,
            ConnectionState::Pending(Purpose::Background) => 6,
        }
    }
}

// The state of a number; a number of no state is taken for Vacant's.
impl From<u8> for ConnectionState {
    fn from(number: u8) -> ConnectionState
        ensures { result ≡ state_of_no number }
    {
        match number {
            1 => ConnectionState::CheckedIn,
            2 => ConnectionState::CheckedOut,
            3 => ConnectionState::Pinned(PinnedState::InUse),
            4 => ConnectionState::Pinned(PinnedState::Returned),
            5 => ConnectionState::Pending(Purpose::Request),
            6 => ConnectionState::Pending(Purpose::Background),
            _ => ConnectionState::Vacant,
        }
    }
}

// Why a connection is closed, with the reasons' numbers: from 1 on, in this order.
#[derive(Clone, Copy)]
pub enum ClosedReason {
    Idle = 1,
    Stale,
    Error,
    Dropped,
    PoolClosed,
}

// A reason's number, as it stands in a record.
impl From<ClosedReason> for u8 {
    fn from(reason: ClosedReason) -> u8
        ensures { result ≡ reason_no reason }
    {
        reason as u8
    }
}

// What a request is answered.
#[derive(Clone, Copy)]
pub enum Reply {
    // connection
    Pooled(u32),
    // connection
    Establishing(u32),
    Warmed,
    // cause
    Cleared(u32),
    Gone,
    Unheard,
}

// What a pool says of an event.
#[derive(Clone, Copy)]
pub enum Record {
    // connection
    ConnectionCreated(u32),
    // connection
    ConnectionReady(u32),
    // connection
    ConnectionCheckedIn(u32),
    // reason, connection, other
    ConnectionClosed(ClosedReason, u32, u32),
    PoolReady,
    // network timeout, cause, generation
    PoolCleared(bool, u32, u32),
    PoolShut,
    // how many are lent
    Interrupt(u32),
    // request
    Replied(u32, Reply),
}

// The twelve refusals, with their numbers: from 1 on, in this order.
#[derive(Clone, Copy)]
pub enum Refusal {
    OutputShort = 1,
    Malformed,
    ClockBack,
    AfterClose,
    NumbersSpent,
    OldRequest,
    QueueFull,
    WrongState,
    WrongTime,
    OptionsOutOfRange,
    NotWaiting,
    AlreadyPinned,
}

// A refusal's number, as a record and a host are told it.
impl From<Refusal> for u8 {
    fn from(r: Refusal) -> u8
        ensures { result ≡ refusal_no r }
    {
        r as u8
    }
}
