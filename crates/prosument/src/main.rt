// Prints the report of the record file on standard input.
#![tactic(auto)]

use console::serve;

fn main(rt: HostRuntime) -> anyhow::Result<()> {
    serve(&rt)
}
