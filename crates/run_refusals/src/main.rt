// A run of the program: every refusal that a record file can bring about.
#![tactic(auto)]

use console::serve;

fn main(rt: HostRuntime) -> anyhow::Result<()> {
    serve(&rt)
}
