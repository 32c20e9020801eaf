// A line of a day in words: where its reading may stand, and what is taken there. `specs/Notation` is the grammar.
#![tactic(auto, using(crate::specs::Laws::picked, crate::specs::Laws::passed), unfolding(crate::specs::Notation::number_up_to, crate::specs::Notation::small_number, crate::specs::Notation::value_takes, crate::specs::Notation::idle_takes, crate::specs::Notation::id_takes, crate::specs::Notation::cause_takes, crate::specs::Notation::marks_takes, crate::specs::Notation::let_go_takes, crate::specs::Notation::timeout_takes, crate::specs::Notation::opened_takes, crate::specs::Notation::opened_at_takes))]

ghost use Rattle.std.specs.Prelude.{◌≡◌};
ghost use Rattle.notation.specs.Notation.{number_up_to, small_number, expected_of, value_takes, idle_takes, named, id_takes, cause_takes, marks_takes, let_go_takes, timeout_takes, opened_takes, opened_at_takes};

use definition::Event;

// ── What a line is made of ──

// The options that are numbers of 32 bits.
#[derive(Clone, Copy)]
pub enum Setting {
    Maximum,
    Minimum,
    MaxConnecting,
}

// The events whose first number is that of a request or a connection.
#[derive(Clone, Copy)]
pub enum Naming {
    CheckOut,
    WarmPool,
    Abandon,
    CheckIn,
    Succeeded,
    Failed,
    Pin,
    ReturnToPinner,
    TakeFromPinner,
}

// What should have come.
#[derive(Clone, Copy)]
pub enum Expected {
    TimeOrOption,
    Value,
    IdleLimit,
    Kind,
    Request,
    Connection,
    Cause,
    MarkOrLetGo,
    LetGo,
    TimeoutOrEnd,
    OpenedOrEnd,
    Opened,
    End,
    // an option behind the first event, or one that was given before
    NoOption,
    OtherOption,
}

// Where the reading of a line stands: what was read, and so what may come next.
#[derive(Clone, Copy)]
pub enum Place {
    // nothing yet: a time, or an option's name
    Start,
    // an option's number
    Value(Setting),
    Set(Setting, u32),
    IdleLimit,
    IdleSet(u64),
    // time: the event's name
    Kind(u64),
    // time, event: a number
    Id(u64, Naming),
    // time: a number
    Cause(u64),
    // time, connection, errored, executing: one of these words, or let-go
    Marks(u64, u32, bool, bool),
    // the same: the time
    LetGo(u64, u32, bool, bool),
    // time, cause: timeout, or nothing more
    Timeout(u64, u32),
    // time, connection: opened, or nothing more
    Opened(u64, u32),
    // the same: the time
    OpenedAt(u64, u32),
    // time, event: nothing more
    Whole(u64, Event),
    Wrong(Expected),
}

// What a whole line says.
#[derive(Clone, Copy)]
pub enum Said {
    Nothing,
    Option(Setting, u32),
    IdleLimit(u64),
    Event(u64, Event),
    Mistake(Expected),
}

pub fn expected_of(n: Naming) -> Expected
    ensures { result ≡ expected_of n }
{
    match n {
        Naming::CheckOut | Naming::WarmPool | Naming::Abandon => Expected::Request,
        Naming::CheckIn
        | Naming::Succeeded
        | Naming::Failed
        | Naming::Pin
        | Naming::ReturnToPinner
        | Naming::TakeFromPinner => Expected::Connection,
    }
}

// ── Numbers ──

pub fn number_up_to(most: u64, w: &[u8]) -> Option<u64>
    ensures { result ≡ number_up_to most w.now }
{
    spelling::number_of(w).ok().filter(|n| *n <= most)
}

// A number of 32 bits.
fn small_number(w: &[u8]) -> Option<u32>
    ensures { result ≡ small_number w.now }
{
    u32::try_from(spelling::number_of(w).ok()?).ok()
}

// ── One word more ──

pub fn value_takes(s: Setting, w: &[u8]) -> Place
    ensures { result ≡ value_takes s w.now }
{
    small_number(w).map_or(Place::Wrong(Expected::Value), |n| Place::Set(s, n))
}

pub fn idle_takes(w: &[u8]) -> Place
    ensures { result ≡ idle_takes w.now }
{
    number_up_to(u64::MAX, w).map_or(Place::Wrong(Expected::IdleLimit), |n| Place::IdleSet(n))
}

// With its number.
fn named(time: u64, n: Naming, id: u32) -> Place
    ensures { result ≡ named time n id }
{
    match n {
        Naming::CheckOut => Place::Whole(time, Event::CheckOut(id)),
        Naming::WarmPool => Place::Whole(time, Event::WarmPool(id)),
        Naming::Abandon => Place::Whole(time, Event::Abandon(id)),
        Naming::CheckIn => Place::Marks(time, id, false, false),
        Naming::Succeeded => Place::Opened(time, id),
        Naming::Failed => Place::Whole(time, Event::Failed(id)),
        Naming::Pin => Place::Whole(time, Event::Pin(id)),
        Naming::ReturnToPinner => Place::Whole(time, Event::ReturnToPinner(id)),
        Naming::TakeFromPinner => Place::Whole(time, Event::TakeFromPinner(id)),
    }
}

pub fn id_takes(time: u64, n: Naming, w: &[u8]) -> Place
    ensures { result ≡ id_takes time n w.now }
{
    small_number(w).map_or(Place::Wrong(expected_of(n)), |id| named(time, n, id))
}

// A clear must have a cause.
pub fn cause_takes(time: u64, w: &[u8]) -> Place
    ensures { result ≡ cause_takes time w.now }
{
    match small_number(w) {
        Some(cause) if cause != 0 => Place::Timeout(time, cause),
        _ => Place::Wrong(Expected::Cause),
    }
}

// No match on the bytes: it leaves a goal for each byte of each name, here 27 more that stay open.
pub fn marks_takes(time: u64, id: u32, errored: bool, executing: bool, w: &[u8]) -> Place
    ensures { result ≡ marks_takes time id errored executing w.now }
{
    if !errored && w == b"errored".as_slice() {
        Place::Marks(time, id, true, executing)
    } else if !executing && w == b"executing".as_slice() {
        Place::Marks(time, id, errored, true)
    } else if w == b"let-go".as_slice() {
        Place::LetGo(time, id, errored, executing)
    } else {
        Place::Wrong(Expected::MarkOrLetGo)
    }
}

pub fn let_go_takes(time: u64, id: u32, errored: bool, executing: bool, w: &[u8]) -> Place
    ensures { result ≡ let_go_takes time id errored executing w.now }
{
    number_up_to(u64::MAX, w).map_or(
        Place::Wrong(Expected::LetGo),
        |n| Place::Whole(time, Event::CheckIn(id, errored, executing, n)),
    )
}

pub fn timeout_takes(time: u64, cause: u32, w: &[u8]) -> Place
    ensures { result ≡ timeout_takes time cause w.now }
{
    if w == b"timeout".as_slice() {
        Place::Whole(time, Event::Clear(true, cause))
    } else {
        Place::Wrong(Expected::TimeoutOrEnd)
    }
}

pub fn opened_takes(time: u64, id: u32, w: &[u8]) -> Place
    ensures { result ≡ opened_takes time id w.now }
{
    if w == b"opened".as_slice() {
        Place::OpenedAt(time, id)
    } else {
        Place::Wrong(Expected::OpenedOrEnd)
    }
}

pub fn opened_at_takes(time: u64, id: u32, w: &[u8]) -> Place
    ensures { result ≡ opened_at_takes time id w.now }
{
    number_up_to(u64::MAX, w).map_or(
        Place::Wrong(Expected::Opened),
        |n| Place::Whole(time, Event::SucceededForPool(id, n)),
    )
}
