// The two accounts, and what records do to the open one.
ghost use Rattle.std.specs.Prelude.{◌≡◌, [], length, drop};
ghost use Rattle.accounts.specs.Means.{fewest};
ghost use Rattle.accounts.specs.Metered.{meter_opening, metered};
ghost use Rattle.accounts.specs.Billed.{bill_opening, billed};
ghost use Rattle.store.specs.Held.{room};
ghost use Rattle.faults.specs.declared.ProgramFault.TheVariants.{InAccount};
ghost use Rattle.desk.specs.State.Account.{none};
ghost use Rattle.desk.specs.Accounts.{account_settled, account_turned, billing_opened, metering_opened, own_month, sums_entered};
ghost use Rattle.desk.specs.Means.{Called, account_of, both, in_place, lines_written, nothing_said, said_with, slots_of};

use accounts::{Billing, Metering};
use answers::Answer;
use faults::ProgramFault;
use hours::MonthSums;
use portions::dated::Dated;
use portions::oldest_first::OldestFirst;
use portions::proportional::Proportional;
use settlement::{Account, Line, Returned};
use std::mem::replace;

// The two sorts of account.
#[derive(Clone, Copy, PartialEq, Eq, Debug)]
pub enum Sort {
    Metering,
    Billing,
}

// An account of each sort, and which of them is open, if one is. Its calls match the sort: a trait of both accounts would be
// matched all the same, as a `dyn` may not be handed out.
#[derive(Drop)]
pub struct Accounts<'a> {
    opened: Option<Sort>,
    metering: Metering<'a>,
    billing: Billing<'a>,
}

// Settlements go proportionally through March 2022, and oldest first afterwards.
const SETTLING: Dated<Proportional, OldestFirst> = Dated {
    through: 74,
    first: Proportional,
    then: OldestFirst,
};

// The refusal of sums that an account handed back; they are struck.
fn struck(returned: Returned) -> ProgramFault
    ensures { result ≡ InAccount returned.fault }
{
    let Returned { fault, sums } = returned;
    let _ = sums.strike();
    ProgramFault::InAccount(fault)
}

impl<'a> Accounts<'a> {
    // Two accounts of which none is open.
    pub(crate) fn new(metering: Metering<'a>, billing: Billing<'a>) -> Accounts<'a>
        ensures none { account_of result ≡ none }
        ensures kept { both result ≡ (metered metering.entry, billed billing.entry) }
        ensures slots { slots_of result ≡ (fewest metering.entry.meters.stores, room billing.entry.store) }
    {
        Accounts {
            opened: None,
            metering,
            billing,
        }
    }

    // Which account is open, if one is.
    pub fn opened(&self) -> Option<Sort>
        ensures { result ≡ self.now.opened }
    {
        let Accounts { opened, .. } = self;
        *opened
    }

    // The metering account.
    pub fn metering(&self) -> &Metering<'a>
        ensures { result.now ≡ self.now.metering }
    {
        &self.metering
    }

    // The billing account.
    pub fn billing(&self) -> &Billing<'a>
        ensures { result.now ≡ self.now.billing }
    {
        &self.billing
    }

    // Takes the metering account out for another.
    pub(crate) fn replace_metering(&mut self, metering: Metering<'a>) -> Metering<'a>
        ensures out { result ≡ self.old.metering }
        ensures put_in { self.new.metering ≡ metering.entry }
        ensures billing { self.new.billing ≡ self.old.billing }
        ensures opened { self.new.opened ≡ self.old.opened }
    {
        replace(&mut self.metering, metering)
    }

    // Takes the billing account out for another.
    pub(crate) fn replace_billing(&mut self, billing: Billing<'a>) -> Billing<'a>
        ensures out { result ≡ self.old.billing }
        ensures put_in { self.new.billing ≡ billing.entry }
        ensures metering { self.new.metering ≡ self.old.metering }
        ensures opened { self.new.opened ≡ self.old.opened }
    {
        replace(&mut self.billing, billing)
    }

    // Hands the two accounts out, as they stand, to be called by whoever takes them.
    pub fn into_parts(self) -> (Metering<'a>, Billing<'a>)
        ensures { result ≡ (self.entry.metering, self.entry.billing) }
    {
        let Accounts {
            opened: _,
            metering,
            billing,
        } = self;
        (metering, billing)
    }

    // The month of the open account.
    pub(crate) fn month(&self) -> Result<u16, ProgramFault>
        ensures { result ≡ in_place (own_month (account_of self.now)) }
    {
        match self.opened {
            None => Err(ProgramFault::OutOfPlace),
            Some(Sort::Metering) => Ok(self.metering.standing().month),
            Some(Sort::Billing) => Ok(self.billing.standing().month),
        }
    }

    // Opens a metering account, where no account is open.
    pub(crate) fn open_metering(
        &mut self,
        month: u16,
        power: u32,
        period: u8,
    ) -> Result<(), ProgramFault>
        ensures { Called (metering_opened (meter_opening (fewest self.old.metering.meters.stores) month power period)) (nothing_said result) self.old self.new }
    {
        if self.opened.is_some() {
            return Err(ProgramFault::OutOfPlace);
        }
        self.metering.open(month, power, period)?;
        self.opened = Some(Sort::Metering);
        Ok(())
    }

    // Opens a billing account, where no account is open.
    // A function of its own: an opening of each sort is asked other things, so one for both would take the call as a closure.
    pub(crate) fn open_billing(&mut self, month: u16, percentage: u8) -> Result<(), ProgramFault>
        ensures { Called (billing_opened (bill_opening (room self.old.billing.store) month percentage)) (nothing_said result) self.old self.new }
    {
        if self.opened.is_some() {
            return Err(ProgramFault::OutOfPlace);
        }
        self.billing.open(month, percentage)?;
        self.opened = Some(Sort::Billing);
        Ok(())
    }

    // Enters a month's sums into the open account; those that are refused are struck.
    pub(crate) fn enter(&mut self, sums: MonthSums) -> Result<(), ProgramFault>
        ensures { Called (sums_entered sums) (nothing_said result) self.old self.new }
    {
        match self.opened {
            None => {
                let _ = sums.strike();
                Err(ProgramFault::OutOfPlace)
            }
            Some(Sort::Metering) => self.metering.enter(sums).map_err(struck),
            Some(Sort::Billing) => self.billing.enter(sums).map_err(struck),
        }
    }

    // Settles the open account.
    pub(crate) fn settle(&mut self, lines: &mut [Line]) -> Result<Answer, ProgramFault>
        ensures called { Called (account_settled (length lines.old)) (said_with lines.new result) self.old self.new }
        ensures lines { drop (lines_written result) lines.new ≡ drop (lines_written result) lines.old }
    {
        match self.opened {
            None => Err(ProgramFault::OutOfPlace),
            Some(Sort::Metering) => {
                let settlement = self.metering.settle(&SETTLING, lines)?;
                Ok(Answer::Settled(settlement))
            }
            Some(Sort::Billing) => {
                let payment = self.billing.settle(&SETTLING, lines)?;
                Ok(Answer::Paid(payment))
            }
        }
    }

    // Turns the open account to the next month.
    pub(crate) fn turn(&mut self) -> Result<Answer, ProgramFault>
        ensures { Called account_turned (said_with [] result) self.old self.new }
    {
        let (refunded, lost) = match self.opened {
            None => return Err(ProgramFault::OutOfPlace),
            Some(Sort::Metering) => self.metering.turn()?,
            Some(Sort::Billing) => self.billing.turn()?,
        };
        Ok(Answer::Turned { refunded, lost })
    }
}
