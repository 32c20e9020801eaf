// The options that a pool is made with: what stands for a 0, and which are in range.
#![tactic(auto, using(definition::specs::Booleans::choices))]

ghost use Rattle.std.specs.Prelude.{◌≡◌};
ghost use Rattle.definition.specs.Pool.{or_default, with_defaults, in_range};

use definition::{Options, SLOTS};

pub const DEFAULT_MAX_POOL_SIZE: u32 = 10;

pub const DEFAULT_MAX_CONNECTING: u32 = 2;

fn or_default(default: u32, n: u32) -> u32
    ensures { result ≡ or_default default n }
{
    if n == 0 { default } else { n }
}

pub fn with_defaults(o: Options) -> Options
    ensures { result ≡ with_defaults o }
{
    Options {
        maximum: or_default(DEFAULT_MAX_POOL_SIZE, o.maximum),
        connecting: or_default(DEFAULT_MAX_CONNECTING, o.connecting),
        ..o
    }
}

const MOST: u32 = SLOTS as u32;

#[tactic(auto, using(definition::specs::Booleans::choices), unfolding(definition::specs::Pool::in_range))]
pub fn in_range(o: Options) -> bool
    ensures { result ≡ in_range o }
{
    1 <= o.maximum
        && o.maximum <= MOST
        && o.minimum <= o.maximum
        && 1 <= o.connecting
        && o.connecting <= MOST
}
