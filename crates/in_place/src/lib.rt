// The entry point on a pool that the caller keeps, and lends.
#![tactic(auto)]

ghost use Rattle.std.specs.Prelude.{◌≡◌};
ghost use Rattle.entry.specs.Entry.{entered, entry};

use pool::Pool;
use slots::Outcome;

// Any pool value, any frame, any output, as in `entry::step`.
pub fn event(pool: &mut Pool, frame: &[u8], out: &mut [u8]) -> Outcome
    ensures { entered pool.new out.new result ≡ entry pool.old frame.now out.old }
{
    let s = entry::step(*pool, frame, out);
    *pool = s.pool;
    s.outcome
}
