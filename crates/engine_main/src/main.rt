// The engine without text, for the benchmark.
#![tactic(auto)]

use slots::ConnectionPoolWorker;
use standard::Output;

fn main() {
    bench::run::<ConnectionPoolWorker, _>(&Output);
}
