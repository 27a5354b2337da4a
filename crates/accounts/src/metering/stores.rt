// Calls on the three stores of a metering account together. Each names the three in a row: a closure for each zone would need
// the clauses of the call on a store once more, and is no plainer.
ghost use Rattle.std.specs.Prelude.{◌≡◌, ◌+◌, ◌<◌, ◌≤◌, true, Ok, length};
ghost use Rattle.portions.specs.Listed.{listed};
ghost use Rattle.ledger.specs.Ledger.{lefts, opening};
ghost use Rattle.histories.specs.Machines.{answers};
ghost use Rattle.ledger.specs.Calls.{turn_refusal};
ghost use Rattle.ledger.specs.Steps.{entering, turning, refunds, losses};
ghost use Rattle.settlement.specs.Kinds.{energy};
ghost use Rattle.settlement.specs.Zones.{all, each, each_two};
ghost use Rattle.settlement.specs.Lines.{written};
ghost use Rattle.settlement.specs.Metering.{all_lines};
ghost use Rattle.accounts.specs.Means.{energies, fewest, in_three};
ghost use Rattle.accounts.specs.Bounds.{Free, Known, Ready, Within};
ghost use Rattle.accounts.specs.Slots.{EachSame, EachAccounted};

use crate::inside::{enter_store, open_store, turn_store};
use crate::lines::write_lines;
use crate::metering::Meters;
use faults::StoreFault;
use portions::amounts::Amounts;
use settlement::{Line, Zone, Zones};

impl<'a> Meters<'a> {
    // Opens the three stores, which have the slots, for a month that can be, with nothing pending.
    pub(super) fn open(&mut self, month: u16) -> Result<(), StoreFault>
        requires roomy { 12 < fewest self.old.stores }
        requires low { 47 ≤ month }
        requires high { month ≤ 1199 }
        ensures answer { result ≡ Ok tt }
        ensures stores { each energies self.new.stores ≡ all (opening month) }
        ensures pending { self.new.pending ≡ all 0 }
        ensures slots { EachSame self.old.stores self.new.stores }
    {
        open_store(&mut self.stores.one, month)?;
        open_store(&mut self.stores.two, month)?;
        open_store(&mut self.stores.three, month)?;
        self.pending = Zones::default();
        Ok(())
    }

    // Enters an export into each store, and adds an import to what is pending.
    pub(super) fn enter(
        &mut self,
        exports: Zones<u32>,
        imports: Zones<u32>,
    ) -> Result<(), StoreFault>
        requires ready { Ready self.old.stores }
        requires free { Free self.old.stores }
        requires small { Within 100000000 exports }
        requires few { Within 447000000 (each_two ◌+◌ self.old.pending imports) }
        ensures answer { result ≡ Ok tt }
        ensures stores { each energies self.new.stores ≡ each_two (λ amount store. entering amount tt store) exports (each energies self.old.stores) }
        ensures pending { self.new.pending ≡ each_two ◌+◌ self.old.pending imports }
        ensures slots { EachAccounted true self.old.stores self.new.stores }
    {
        enter_store(&mut self.stores.one, exports.one, ())?;
        enter_store(&mut self.stores.two, exports.two, ())?;
        enter_store(&mut self.stores.three, exports.three, ())?;
        self.pending = self.pending.zip_with(imports, |was, more| was + more);
        Ok(())
    }

    // Refuses a turn that one of the stores refuses.
    pub(super) fn may_turn(&self) -> Result<(), StoreFault>
        ensures { result ≡ answers (turn_refusal (energies self.now.stores.one)) tt }
    {
        self.stores.one.may_turn()?;
        self.stores.two.may_turn()?;
        self.stores.three.may_turn()
    }

    // Turns the three stores: their refunds and losses, summed.
    pub(super) fn turn(&mut self) -> Result<(u64, u64), StoreFault>
        requires ready { Ready self.old.stores }
        requires early { (energies self.old.stores.one).month < 1199 }
        ensures answer { result ≡ Ok (in_three (refunds energy) self.old.stores, in_three (losses energy) self.old.stores) }
        ensures stores { each energies self.new.stores ≡ each (turning energy) (each energies self.old.stores) }
        ensures pending { self.new.pending ≡ self.old.pending }
        ensures slots { EachAccounted true self.old.stores self.new.stores }
        ensures free { Free self.new.stores }
    {
        let one = turn_store(&mut self.stores.one)?;
        let two = turn_store(&mut self.stores.two)?;
        let three = turn_store(&mut self.stores.three)?;
        Ok((one.0 + two.0 + three.0, one.1 + two.1 + three.1))
    }

    // What is left in each open portion of each store.
    pub(super) fn lefts(&self) -> Zones<Amounts>
        ensures { each listed result ≡ each lefts (each energies self.now.stores) }
    {
        self.stores.map(|store| store.lefts())
    }

    // Writes a line for each open portion, zone by zone, over the first of the caller's lines: how many there are.
    pub(super) fn write(&self, before: &Zones<Amounts>, lines: &mut [Line]) -> usize
        requires known { Known (each listed before.now) (each energies self.now.stores) }
        requires room { 39 ≤ length lines.old }
        ensures count { result ≡ length (all_lines (each listed before.now) (each energies self.now.stores)) }
        ensures lines { lines.new ≡ written (all_lines (each listed before.now) (each energies self.now.stores)) lines.old }
    {
        let stores = &self.stores;
        let one = write_lines(&stores.one, Some(Zone::First), &before.one, lines);
        let (_, rest) = lines.split_at_mut(one);
        let two = write_lines(&stores.two, Some(Zone::Second), &before.two, rest);
        let (_, rest) = rest.split_at_mut(two);
        let three = write_lines(&stores.three, Some(Zone::Third), &before.three, rest);
        one + two + three
    }
}
