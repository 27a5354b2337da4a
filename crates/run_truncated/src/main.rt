// A run of the program: the last proportional settlement, the first oldest first, and a file that ends inside a record.
#![tactic(auto)]

use console::serve;

fn main(rt: HostRuntime) -> anyhow::Result<()> {
    serve(&rt)
}
