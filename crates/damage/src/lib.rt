// A pool value with one number put into it, whatever rule that breaks.
#![tactic(auto)]

use definition::{ConnectionState, PoolState, QUEUE, SLOTS};
use pool::Pool;

// What is damaged, in order of the bytes that name it.
#[derive(Clone, Copy)]
pub enum Damage {
    Maximum,
    Minimum,
    Connecting,
    TotalCount,
    PendingCount,
    AvailableCount,
    WaitingCount,
    NextId,
    LastRequest,
    Serial,
    Generation,
    SlotId,
    SlotGeneration,
    SlotTime,
    SlotState,
    // a place of the available list
    Available,
    // a place of the queue
    Waiter,
    Clock,
    New,
    // for that cause
    Paused,
    Ready,
    Closed,
}

// Any byte past them closes the pool.
impl From<u8> for Damage {
    fn from(byte: u8) -> Damage {
        match byte {
            0 => Damage::Maximum,
            1 => Damage::Minimum,
            2 => Damage::Connecting,
            3 => Damage::TotalCount,
            4 => Damage::PendingCount,
            5 => Damage::AvailableCount,
            6 => Damage::WaitingCount,
            7 => Damage::NextId,
            8 => Damage::LastRequest,
            9 => Damage::Serial,
            10 => Damage::Generation,
            11 => Damage::SlotId,
            12 => Damage::SlotGeneration,
            13 => Damage::SlotTime,
            14 => Damage::SlotState,
            15 => Damage::Available,
            16 => Damage::Waiter,
            17 => Damage::Clock,
            18 => Damage::New,
            19 => Damage::Paused,
            20 => Damage::Ready,
            _ => Damage::Closed,
        }
    }
}

// Place i, where there are several, gets x; where there is no such place, nothing does.
pub fn damaged(mut p: Pool, what: u8, i: usize, x: u64) -> Pool {
    let low = (x % 4294967296) as u32;
    let lowest = (x % 256) as u8;
    match Damage::from(what) {
        Damage::Maximum => p.head.options.maximum = low,
        Damage::Minimum => p.head.options.minimum = low,
        Damage::Connecting => p.head.options.connecting = low,
        Damage::TotalCount => p.head.total_connection_count = low,
        Damage::PendingCount => p.head.pending_connection_count = low,
        Damage::AvailableCount => p.head.available_count = low as usize,
        Damage::WaitingCount => p.head.waiting_count = low as usize,
        Damage::NextId => p.head.next_connection_id = low,
        Damage::LastRequest => p.head.last_request = low,
        Damage::Serial => p.head.serial = low,
        Damage::Generation => p.head.status.generation = low,
        Damage::SlotId if i < SLOTS => p.slots[i].id = low,
        Damage::SlotGeneration if i < SLOTS => p.slots[i].generation = low,
        Damage::SlotTime if i < SLOTS => p.slots[i].time = x,
        Damage::SlotState if i < SLOTS => p.slots[i].state = ConnectionState::from(lowest),
        Damage::Available if i < SLOTS => p.available[i] = lowest,
        Damage::Waiter if i < QUEUE => p.waiters[i] = x,
        Damage::SlotId
        | Damage::SlotGeneration
        | Damage::SlotTime
        | Damage::SlotState
        | Damage::Available
        | Damage::Waiter => {}
        Damage::Clock => p.head.clock = x,
        Damage::New => p.head.status.state = PoolState::New,
        Damage::Paused => p.head.status.state = PoolState::Paused(low),
        Damage::Ready => p.head.status.state = PoolState::Ready,
        Damage::Closed => p.head.status.state = PoolState::Closed,
    }
    p
}
