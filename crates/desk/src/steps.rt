// The desk, and what it does with a record.
ghost use Rattle.std.specs.Prelude.{◌≡◌, ◌≤◌, Option, Result, length, drop};
ghost use Rattle.std.specs.Fn.{FnOnceReturnsAtMut};
ghost use Rattle.faults.specs.declared.BookFault.{BookFault};
ghost use Rattle.accounts.specs.Means.{fewest};
ghost use Rattle.accounts.specs.Metered.{metered};
ghost use Rattle.accounts.specs.Billed.{billed};
ghost use Rattle.store.specs.Held.{room};
ghost use Rattle.records.specs.Records.{record_model};
ghost use Rattle.desk.specs.Accounts.{own_month};
ghost use Rattle.desk.specs.Books.{each_in_range, hour_refusal, price_in_range, price_refusal, with_next_hour, with_hourly, with_monthly};
ghost use Rattle.desk.specs.State.{BookState, State, outset};
ghost use Rattle.desk.specs.Steps.{book_opened, book_step, change, finish_book};
ghost use Rattle.desk.specs.Stretch.{ReadOn, ReadingAccepted};
ghost use Rattle.desk.specs.Means.{Changes, Done, Means, Rests, Took, both, lines_written, memory_of, nothing_said, slots_of};

use crate::account_calls::Accounts;
use crate::book::{Incomplete, OpenBook};
use crate::step_fault::StepFault;
use accounts::{Billing, Metering};
use answers::Answer;
use faults::{BookFault, ProgramFault};
use hours::{Reading, Tariff};
use records::{Record, price_list};
use settlement::Line;
use std::alloc::Global;

// What the program holds: two accounts of which one may be open, and the open book.
#[derive(Drop)]
pub struct Desk<'a> {
    accounts: Accounts<'a>,
    book: Option<OpenBook>,
}

impl<'a> Desk<'a> {
    // A desk before the first record: no account is open, and no book.
    pub fn new(metering: Metering<'a>, billing: Billing<'a>) -> Desk<'a>
        ensures means { Means result outset }
        ensures kept { both result.accounts ≡ (metered metering.entry, billed billing.entry) }
        ensures slots { slots_of result.accounts ≡ (fewest metering.entry.meters.stores, room billing.entry.store) }
    {
        Desk {
            accounts: Accounts::new(metering, billing),
            book: None,
        }
    }

    // The two accounts, as they stand.
    pub fn accounts(&self) -> &Accounts<'a>
        ensures { result.now ≡ self.now.accounts }
    {
        &self.accounts
    }

    // Takes the metering account out for another, so that anything can be called on it between two
    // records; the same call puts it back. Which account is told as open stays, and so does the book.
    pub fn replace_metering(&mut self, metering: Metering<'a>) -> Metering<'a>
        ensures out { result ≡ self.old.accounts.metering }
        ensures put_in { self.new.accounts.metering ≡ metering.entry }
        ensures billing { self.new.accounts.billing ≡ self.old.accounts.billing }
        ensures opened { self.new.accounts.opened ≡ self.old.accounts.opened }
        ensures book { self.new.book ≡ self.old.book }
    {
        self.accounts.replace_metering(metering)
    }

    // The same of the billing account.
    pub fn replace_billing(&mut self, billing: Billing<'a>) -> Billing<'a>
        ensures out { result ≡ self.old.accounts.billing }
        ensures put_in { self.new.accounts.billing ≡ billing.entry }
        ensures metering { self.new.accounts.metering ≡ self.old.accounts.metering }
        ensures opened { self.new.accounts.opened ≡ self.old.accounts.opened }
        ensures book { self.new.book ≡ self.old.book }
    {
        self.accounts.replace_billing(billing)
    }

    // Ends the desk, and hands the accounts back. An open book is let go.
    pub fn into_accounts(self) -> Accounts<'a>
        ensures { result ≡ self.entry.accounts }
    {
        let Desk { accounts, book: _ } = self;
        accounts
    }

    // Opens a book for the account's month, where no book is open.
    fn open_book(&mut self, tariff: Tariff) -> Result<(), ProgramFault>
        ensures { Done (book_step (book_opened tariff.marks tariff.sale)) (nothing_said result) self.old self.new }
    {
        let month = self.accounts.month()?;
        if self.book.is_some() {
            return Err(ProgramFault::OutOfPlace);
        }
        self.book = Some(OpenBook::open(month, tariff)?);
        Ok(())
    }

    // Does something to the open book, where an account is open.
    fn change_book<F: FnOnce(&mut OpenBook) -> Result<(), BookFault>>(
        &mut self,
        does: F,
    ) -> Result<(), ProgramFault>
        requires { F.IsAlwaysCallable does }
        ensures { (refusal : BookState → Option BookFault) (becomes : BookState → BookState) → Changes (FnOnceReturnsAtMut F.FnOnce does) refusal becomes → Done (book_step (change refusal becomes)) (nothing_said result) self.old self.new }
    {
        self.accounts.month()?;
        let Some(open) = &mut self.book else {
            return Err(ProgramFault::OutOfPlace);
        };
        does(open)?;
        Ok(())
    }

    // Takes a month price.
    fn set_month_price(&mut self, price: i32) -> Result<(), ProgramFault>
        ensures { Done (book_step (change (λ _. price_refusal (price_in_range price)) (with_monthly price))) (nothing_said result) self.old self.new }
    {
        self.change_book(|open| open.set_month_price(price))
    }

    // Takes hour prices.
    fn set_hour_prices(&mut self, prices: Vec<i32>) -> Result<(), ProgramFault>
        ensures { Done (book_step (change (λ _. price_refusal (each_in_range prices.items)) (with_hourly prices.items))) (nothing_said result) self.old self.new }
    {
        self.change_book(|open| open.set_hour_prices(prices))
    }

    // Takes a reading.
    fn read(&mut self, reading: Reading) -> Result<(), ProgramFault>
        ensures { Done (book_step (change (hour_refusal reading.import reading.export) (with_next_hour reading.import reading.export))) (nothing_said result) self.old self.new }
    {
        self.change_book(|open| open.read(reading))
    }

    // Reads on in the open book, as long as the bytes go on with readings that are accepted: how many bytes these take.
    pub fn read_on(&mut self, bytes: &[u8]) -> usize
        ensures read { (s : State) → Means self.old s → ReadOn ReadingAccepted s bytes.now (drop result bytes.now) (Means self.new) }
        ensures within { result ≤ length bytes.now }
        ensures accounts { self.new.accounts ≡ self.old.accounts }
    {
        if self.accounts.month().is_err() {
            return 0;
        }
        let Some(open) = &mut self.book else {
            return 0;
        };
        bytes.len() - open.read_on(bytes).len()
    }

    // Finishes the open book and enters its sums; the book is gone, also where the account refuses them.
    fn finish(&mut self) -> Result<(), ProgramFault>
        ensures { Done (λ s. finish_book (own_month s.account) s.account s.book) (nothing_said result) self.old self.new }
    {
        self.accounts.month()?;
        let open = self.book.take().ok_or(ProgramFault::OutOfPlace)?;
        // A match: with `map_err` the proof does not close, since of what an uncalled closure borrowed, here the book's place,
        // nothing is known.
        match open.finish() {
            Ok(sums) => self.accounts.enter(sums),
            Err(incomplete) => {
                let Incomplete { fault, open } = incomplete;
                self.book = Some(open);
                Err(ProgramFault::InBook(fault))
            }
        }
    }

    // Takes a record: what it is answered, or why it is refused. A settlement writes its lines over the first of the caller's.
    pub fn take(
        &mut self,
        heap: Global,
        said: &Record<'_>,
        lines: &mut [Line],
    ) -> Result<Answer, StepFault>
        ensures taken { (s : State) → Means self.old s → Took (memory_of self.old (length lines.old)) s (record_model said.now) result lines.new (Means self.new) }
        ensures lines { drop (lines_written result) lines.new ≡ drop (lines_written result) lines.old }
        ensures rests { Rests self.new.accounts.opened self.old.accounts self.new.accounts }
        ensures slots { slots_of self.new.accounts ≡ slots_of self.old.accounts }
    {
        match *said {
            Record::OpenMetering {
                month,
                power,
                period,
            } => self.accounts.open_metering(month, power, period)?,
            Record::OpenBilling { month, percentage } => {
                self.accounts.open_billing(month, percentage)?
            }
            Record::OpenBook {
                working,
                weekend,
                sale,
            } => {
                let marks = [*working, *weekend];
                self.open_book(Tariff { marks, sale })?
            }
            Record::MonthPrice(price) => self.set_month_price(price)?,
            Record::HourPrices(bytes) => self.set_hour_prices(price_list(heap, bytes)?)?,
            Record::Reading { import, export } => self.read(Reading { import, export })?,
            Record::Finish => self.finish()?,
            Record::Settle => return Ok(self.accounts.settle(lines)?),
            Record::Turn => return Ok(self.accounts.turn()?),
        }
        Ok(Answer::Nothing)
    }
}
