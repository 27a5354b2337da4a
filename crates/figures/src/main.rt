// The worked figures, run through the code: each is printed with what it should be.
#![tactic(auto)]

mod draws;
mod ends;
mod first_open;
mod months;
mod openings;
mod settlements;
mod statements;
mod sums;

// A figure: its name, and what it should be.
#[derive(Clone, Copy)]
struct Figure<'a> {
    name: &'a str,
    expected: &'a str,
}

impl Figure<'_> {
    // Prints what was got beside what it should be.
    fn show(self, rt: &HostRuntime, got: &str) -> anyhow::Result<()> {
        let name = self.name;
        let expected = self.expected;
        println!(rt; "{name}: {got}, should be {expected}")?;
        Ok(())
    }
}

fn main(rt: HostRuntime) -> anyhow::Result<()> {
    statements::figures_hold();
    months::show_months(&rt)?;
    draws::show_draws(&rt)?;
    first_open::show_first_open(&rt)?;
    ends::show_ends(&rt)?;
    openings::show_openings_at_bounds(&rt)?;
    settlements::show_settlements(&rt)
}
