// The trial tables, run. What they write is held to tables that were worked out apart from this code: docs/TRIALS.md says how.
#![tactic(auto)]

mod decimal_trials;
mod list_trials;
mod predicate_trials;
mod writing;

use std::io;

fn main(rt: HostRuntime) -> io::Result<()> {
    decimal_trials::run(&rt)?;
    list_trials::run(&rt)?;
    predicate_trials::run(&rt)
}
