// Opening a book, reading hours into it and finishing it.
ghost use Rattle.std.specs.Prelude.{◌≡◌, ◌+◌, ◌*◌, ◌<◌, ◌≤◌, true, List, [], IfOk, Some, None, Ok, Err};
ghost use Rattle.hours.specs.Balance.{balance, energy_given, energy_taken};
ghost use Rattle.hours.specs.Price.{Ranged, positive};
ghost use Rattle.hours.specs.Zones.{zone_number};
ghost use Rattle.hours.specs.Bounds.{Bounded, Cheap};
ghost use Rattle.hours.specs.Month.{Finished, HasRead, HourRead, MonthRead, ReadsOn};
ghost use Rattle.hours.specs.Opening.{Opened, each_cheap, book_open_refusal};
ghost use Rattle.hours.specs.Reading.{after, answer, grown, hours_of, nothing, reading as read_with, ReadsIn, RefusedAnyhow, too_large, zone_at};
ghost use Rattle.hours.specs.Source.{next_hour, next_reading, next_state};

use crate::book::{Book, Reading, Tally, Tariff, Terms, Unfinished};
use crate::marks::Marks;
use crate::prices::{PriceSource, StillSource};
use crate::sums::{MonthSums, Totals};
use crate::zones::Zone;
use calendar::Month;
use faults::BookFault;

// Import − export of an hour, in Wh: what it took from the grid, or, where it is negative, gave to it. Neither is over
// 100,000 Wh: a larger reading is refused before.
#[derive(Clone, Copy)]
struct Balance {
    net: i32,
}

impl Reading {
    // Its import or its export is over 100,000 Wh.
    fn is_too_large(self) -> bool
        ensures { result ≡ too_large self.import self.export }
    {
        self.import > 100_000 || self.export > 100_000
    }

    // The difference import − export.
    fn balance(self) -> Balance
        requires import { self.import ≤ 100000 }
        requires export { self.export ≤ 100000 }
        ensures { result.net ≡ balance self.import self.export }
    {
        Balance {
            net: self.import as i32 - self.export as i32,
        }
    }
}

impl Balance {
    // The energy taken: a positive difference, else 0.
    fn taken(self) -> u32
        ensures { result ≡ energy_taken self.net }
    {
        self.net.max(0) as u32
    }

    // The energy given: the size of a negative one, else 0.
    fn given(self) -> u32
        ensures { result ≡ energy_given self.net }
    {
        self.net.min(0).unsigned_abs()
    }
}

// What is paid for a price: a negative one counts as 0.
fn rate_of(price: i32) -> u32
    ensures { result ≡ positive price }
{
    price.max(0) as u32
}

// Energy at a price. Its bounds stand again on the two steps that hand the numbers on: a type for each would be taken apart at
// the next step.
fn amount(energy: u32, price: u32) -> u64
    requires energy { energy ≤ 100000 }
    requires price { price ≤ 1000000 }
    ensures value { result ≡ energy * price }
    ensures bound { result ≤ 1000000 * energy }
{
    u64::from(energy) * u64::from(price)
}

// No sale price is over 1,000,000.
fn all_cheap(sale: &[u32; 3]) -> bool
    ensures value { result ≡ each_cheap sale.now }
    ensures cheap { result ≡ true → Cheap sale.now }
{
    sale.iter().all(|price| *price <= 1_000_000)
}

impl Terms {
    // The zone of the hour at a place; none past the month's end.
    fn zone_at(&self, place: u16) -> Option<Zone>
        ensures { elim result [ Some z ↦ (place < hours_of self.now) × (zone_number z ≡ zone_at self.now place) | None ↦ hours_of self.now ≤ place ] }
    {
        let hour = self.month.hour_at(place)?;
        self.marks.zone(hour.weekend, hour.clock)
    }
}

impl Tally {
    fn empty() -> Self
        ensures { result ≡ nothing }
    {
        let none = [0; 3];
        Tally {
            hours: 0,
            totals: Totals {
                import: none,
                export: none,
                charge: 0,
                value: 0,
            },
        }
    }

    // Joins an hour of `zone`, which took energy at the sale price or gave it at `rate`. In place: a reading is to cost no copy of
    // the tally.
    fn add_hour(&mut self, zone: Zone, taken: u32, given: u32, sale: u32, rate: u32)
        requires room { self.old.hours < 745 }
        requires energy { taken + given ≤ 100000 }
        requires sale { sale ≤ 1000000 }
        requires rate { rate ≤ 1000000 }
        ensures value { self.new ≡ grown (zone_number zone) taken given sale rate self.old }
        ensures bounded { Bounded self.new.hours self.new.totals }
    {
        let at = zone as usize;
        self.hours += 1;
        self.totals.charge += amount(taken, sale);
        self.totals.import[at] += taken;
        self.totals.export[at] += given;
        self.totals.value += amount(given, rate);
    }
}

impl Book {
    // Opens a book for `month`, with the marks and the sale prices of a tariff.
    pub fn open(month: u16, tariff: Tariff) -> Result<Book, BookFault>
        ensures opened { elim result [ Ok b ↦ Opened month tariff.marks tariff.sale b.terms b.tally | Err f ↦ book_open_refusal month tariff.marks tariff.sale ≡ Some f ] }
        ensures history { IfOk result (λ b. HasRead b.terms [] b.tally) }
    {
        if month < 47 {
            return Err(BookFault::MonthOutOfRange);
        }
        let Some(month) = Month::new(month) else {
            return Err(BookFault::MonthOutOfRange);
        };
        let marks = Marks::new(tariff.marks)?;
        if !all_cheap(&tariff.sale) {
            return Err(BookFault::SalePriceTooHigh);
        }
        Ok(Book {
            terms: Terms {
                month,
                marks,
                sale: tariff.sale,
            },
            tally: Tally::empty(),
        })
    }

    // The zone of the next hour, where the reading can be read there.
    #[inline(always)]
    fn next_zone(&self, reading: Reading) -> Result<Zone, BookFault>
        ensures { elim result [ Ok zone ↦ ReadsIn self.now.terms self.now.tally reading.import reading.export (zone_number zone) | Err f ↦ RefusedAnyhow self.now.terms self.now.tally reading.import reading.export f ] }
    {
        if reading.is_too_large() {
            return Err(BookFault::ReadingTooLarge);
        }
        self.terms
            .zone_at(self.tally.hours)
            .ok_or(BookFault::BookComplete)
    }

    // Joins the next hour, of `zone`, at the price that there is for it. Nothing branches on which of import and export is larger but
    // where there is no price: from hour to hour it is as good as random.
    #[inline(always)]
    fn join(&mut self, zone: Zone, reading: Reading, price: Option<i32>) -> Result<(), BookFault>
        requires zone { ReadsIn self.old.terms self.old.tally reading.import reading.export (zone_number zone) }
        requires price { Ranged price }
        ensures answer { result ≡ answer (read_with self.old.terms self.old.tally reading.import reading.export price) }
        ensures terms { self.new.terms ≡ self.old.terms }
        ensures tally { self.new.tally ≡ after self.old.tally (read_with self.old.terms self.old.tally reading.import reading.export price) }
        ensures bounded { Bounded self.old.tally.hours self.old.tally.totals }
    {
        let rate = match price {
            Some(price) => rate_of(price),
            None if reading.import < reading.export => return Err(BookFault::NoPrice),
            None => 0,
        };
        let sale = self.terms.sale[zone as usize];
        let balance = reading.balance();
        self.tally
            .add_hour(zone, balance.taken(), balance.given(), sale, rate);
        Ok(())
    }

    // Reads the next hour. The source is asked only where the hour can be read and its export is larger.
    pub fn read<S: PriceSource>(
        &mut self,
        reading: Reading,
        source: &mut S,
    ) -> Result<(), BookFault>
        ensures answer { result ≡ answer (next_reading S.PriceSource (S.PriceSource.state source.old) self.old.terms self.old.tally reading.import reading.export) }
        ensures terms { self.new.terms ≡ self.old.terms }
        ensures tally { self.new.tally ≡ after self.old.tally (next_reading S.PriceSource (S.PriceSource.state source.old) self.old.terms self.old.tally reading.import reading.export) }
        ensures asked { S.PriceSource.state source.new ≡ next_state S.PriceSource (S.PriceSource.state source.old) self.old.terms self.old.tally reading.import reading.export }
        ensures history { ReadsOn self.old.terms self.old.tally (next_hour S.PriceSource (S.PriceSource.state source.old) self.old.terms self.old.tally reading.import reading.export) result self.new.tally }
    {
        let zone = self.next_zone(reading)?;
        let price = if reading.import < reading.export {
            source.ask(self.terms.month.number(), self.tally.hours)
        } else {
            None
        };
        self.join(zone, reading, price)
    }

    // Reads the next hour as `read` does, but asks the source wherever the hour can be read, which cannot be told of one that asking
    // leaves as it is: of use where asking costs less than to find out whether a price is needed. Inlined with what it calls, so that
    // a caller's loop keeps in registers what no reading changes.
    #[inline(always)]
    pub fn read_asking<S: StillSource>(
        &mut self,
        reading: Reading,
        source: &mut S,
    ) -> Result<(), BookFault>
        ensures answer { result ≡ answer (next_reading S.PriceSource (S.PriceSource.state source.old) self.old.terms self.old.tally reading.import reading.export) }
        ensures terms { self.new.terms ≡ self.old.terms }
        ensures tally { self.new.tally ≡ after self.old.tally (next_reading S.PriceSource (S.PriceSource.state source.old) self.old.terms self.old.tally reading.import reading.export) }
        ensures asked { S.PriceSource.state source.new ≡ next_state S.PriceSource (S.PriceSource.state source.old) self.old.terms self.old.tally reading.import reading.export }
        ensures history { ReadsOn self.old.terms self.old.tally (next_hour S.PriceSource (S.PriceSource.state source.old) self.old.terms self.old.tally reading.import reading.export) result self.new.tally }
    {
        let zone = self.next_zone(reading)?;
        let price = source.ask(self.terms.month.number(), self.tally.hours);
        self.join(zone, reading, price)
    }

    // The sums of a complete book; a book with hours missing is handed back.
    pub fn finish(self) -> Result<MonthSums, Unfinished>
        ensures sums { elim result [ Ok s ↦ Finished self.terms self.tally s.month s.totals | Err u ↦ (self.tally.hours < hours_of self.terms) × (u.fault ≡ BookFault.HoursMissing) × (u.book ≡ self) ] }
        ensures month { IfOk result (λ s. ((hs : List HourRead) → HasRead self.terms hs self.tally → MonthRead self.terms hs s.totals)) }
    {
        if self.tally.hours < self.terms.month.hours() {
            return Err(Unfinished {
                fault: BookFault::HoursMissing,
                book: self,
            });
        }
        Ok(MonthSums {
            month: self.terms.month.number(),
            totals: self.tally.totals,
        })
    }
}
