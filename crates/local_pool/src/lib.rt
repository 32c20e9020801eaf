// A pool in a local, lent to the entry point for one call.
#![tactic(auto)]

ghost use Rattle.std.specs.Prelude.{◌≡◌};
ghost use Rattle.entry.specs.Entry.{entered, entry};

use entry::Stepped;
use pool::Pool;

pub fn once(mut start: Pool, frame: &[u8], out: &mut [u8]) -> Stepped
    ensures { entered result.pool out.new result.outcome ≡ entry start frame.now out.old }
{
    let outcome = in_place::event(&mut start, frame, out);
    Stepped {
        outcome,
        pool: start,
    }
}
