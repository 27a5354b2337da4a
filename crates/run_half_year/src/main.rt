// A run of the program: a half-year account whose zones help each other, over the change of the draw rule.
#![tactic(auto)]

use console::serve;

fn main(rt: HostRuntime) -> anyhow::Result<()> {
    serve(&rt)
}
