// Tests of a state: the pool's, and that of an available connection.
#![tactic(auto)]

ghost use Rattle.std.specs.Prelude.{◌≡◌, ◌<◌, min, get_or, Some, None};
ghost use Rattle.definition.specs.Words.{when◌then◌else◌, ◌<?◌};
ghost use Rattle.definition.specs.Pool.{slot_count, is_ready, is_closed, stale_in, idle_for, most_age};
ghost use Rattle.definition.specs.declared.ClosedReason.TheVariants.{Idle};
ghost use Rattle.slots.specs.View.{pool_in};
ghost use Rattle.slots.specs.Codes.{Examines};

use definition::{ClosedReason, MOST_AGE, PoolState};
use slots::ConnectionPoolWorker;

pub fn is_ready(s: PoolState) -> bool
    ensures { result ≡ is_ready s }
{
    match s {
        PoolState::Ready => true,
        PoolState::New | PoolState::Paused(_) | PoolState::Closed => false,
    }
}

pub fn is_closed(s: PoolState) -> bool
    ensures { result ≡ is_closed s }
{
    match s {
        PoolState::Closed => true,
        PoolState::New | PoolState::Paused(_) | PoolState::Ready => false,
    }
}

// Stale: its generation is not the pool's.
pub fn is_stale(generation: u32, made: u32) -> bool
    ensures { result ≡ stale_in generation made }
{
    !(made == generation)
}

// The idle test: the age, where it reaches the limit, else 0, as the definition answers.
fn idle_for(limit: u64, since: u64, clock: u64) -> u64
    ensures { result ≡ idle_for limit since clock }
{
    if limit == 0 {
        return 0;
    }
    if clock < since {
        return 0;
    }
    let age = clock - since;
    if limit <= age {
        return age;
    }
    0
}

// An age as a record can hold it.
fn capped(age: u64) -> u32
    ensures { result ≡ min age most_age }
{
    if MOST_AGE as u64 <= age {
        return MOST_AGE;
    }
    age as u32
}

// What the test's answer makes of a connection that is not stale.
#[tactic(auto, using(crate::proofs::Reason::by_age))]
fn idle_reason(age: u64) -> Option<(ClosedReason, u32)>
    ensures { result ≡ (when 0 <? age then Some (Idle, min age most_age) else None) }
{
    if 0 < age {
        return Some((ClosedReason::Idle, capped(age)));
    }
    None
}

// An available connection: its slot, and where it has perished the reason, and the age that is told.
#[derive(Clone, Copy)]
pub struct Examined {
    pub slot: usize,
    pub perished: Option<(ClosedReason, u32)>,
}

// The one at place k of the available list.
pub fn examine(worker: &ConnectionPoolWorker, k: usize) -> Examined
    requires { (k < slot_count) × (get_or worker.now.available k 0 < slot_count) }
    ensures { Examines (pool_in worker.now) k result.slot result.perished }
{
    let slot = worker.available[k] as usize;
    if is_stale(worker.head.status.generation, worker.generations[slot]) {
        return Examined {
            slot,
            perished: Some((ClosedReason::Stale, 0)),
        };
    }
    let age = idle_for(
        worker.head.options.idle,
        worker.times[slot],
        worker.head.clock,
    );
    Examined {
        slot,
        perished: idle_reason(age),
    }
}
