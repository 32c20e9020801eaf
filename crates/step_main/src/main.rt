// The entry point without text, for the benchmark.
#![tactic(auto)]

use pool::Pool;
use standard::Output;

fn main() {
    bench::run::<Pool, _>(&Output);
}
