// A run of the program: a billing year, what is due in it, and what is refunded and lost when its portions end.
#![tactic(auto)]

use console::serve;

fn main(rt: HostRuntime) -> anyhow::Result<()> {
    serve(&rt)
}
