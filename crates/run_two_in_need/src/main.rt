// A run of the program: at 7 tenths two zones are in need of a third, then one of two, and two zones lose what is left.
#![tactic(auto)]

use console::serve;

fn main(rt: HostRuntime) -> anyhow::Result<()> {
    serve(&rt)
}
