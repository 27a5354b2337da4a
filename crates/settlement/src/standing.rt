// Where an account stands, and what it refuses there, stated once for both sorts.
ghost use Rattle.std.specs.Prelude.{◌≡◌};
ghost use Rattle.settlement.specs.declared.states.MonthState.TheVariants as state;
ghost use Rattle.settlement.specs.declared.standing.Standing.{Standing};
ghost use Rattle.histories.specs.Machines.{answers};
ghost use Rattle.settlement.specs.Table.{table};
ghost use Rattle.settlement.specs.Standing.{enter_refusal, settle_refusal, stores_turn_refusal, turn_refusal};

use crate::states::{Call, MonthState};
use faults::{AccountFault, StoreFault};

// Where an account stands: whether it is open, its month and that month's state, and whether a period ends with it.
// `opened` stays beside the others, since an account has a month and a state before an opening too.
#[derive(Clone, Copy)]
pub struct Standing {
    pub opened: bool,
    pub month: u16,
    pub state: MonthState,
    pub ends: bool,
}

// An account of either sort, with the state of its month.
pub trait Account {
    ghost stands: { Self → Standing };

    // Where the account stands.
    fn standing(&self) -> Standing
        ensures { result ≡ stands self.now };

    // Refuses a turn that a store of the account refuses.
    fn stores_may_turn(&self) -> Result<(), StoreFault>
        ensures { result ≡ answers (stores_turn_refusal (stands self.now)) tt };

    // The state after a call in the month's state, or the refusal of it.
    final fn after(&self, call: Call) -> Result<MonthState, AccountFault>
        ensures { result ≡ table (stands self.now).state call (stands self.now).ends }
    {
        let Standing { state, ends, .. } = self.standing();
        match (state, call, ends) {
            (MonthState::Waiting, Call::Enter, _) => Ok(MonthState::Entered),
            (MonthState::Waiting, Call::Settle, _) => Err(AccountFault::NothingEntered),
            (MonthState::Waiting, Call::Turn, _) => Err(AccountFault::NothingEntered),
            (MonthState::Entered, Call::Enter, _) => Err(AccountFault::AlreadyEntered),
            (MonthState::Entered, Call::Settle, true) => Ok(MonthState::Settled),
            (MonthState::Entered, Call::Settle, false) => Err(AccountFault::PeriodGoesOn),
            (MonthState::Entered, Call::Turn, true) => Err(AccountFault::NotSettled),
            (MonthState::Entered, Call::Turn, false) => Ok(MonthState::Waiting),
            (MonthState::Settled, Call::Enter, _) => Err(AccountFault::AlreadyEntered),
            (MonthState::Settled, Call::Settle, _) => Err(AccountFault::AlreadySettled),
            (MonthState::Settled, Call::Turn, _) => Ok(MonthState::Waiting),
        }
    }

    // Refuses an enter of a month's sums that is not to be; otherwise the state after it.
    final fn may_enter(&self, month: u16) -> Result<MonthState, AccountFault>
        ensures { result ≡ answers (enter_refusal (stands self.now) month) state.Entered }
    {
        let Standing {
            opened,
            month: own,
            ..
        } = self.standing();
        if !opened {
            return Err(AccountFault::NotOpen);
        }
        if month != own {
            return Err(AccountFault::OtherMonth);
        }
        self.after(Call::Enter)
    }

    // Refuses a settlement that is not to be; otherwise the state after it.
    final fn may_settle(&self, fewest: usize, lines: usize) -> Result<MonthState, AccountFault>
        ensures { result ≡ answers (settle_refusal (stands self.now) fewest lines) state.Settled }
    {
        if !self.standing().opened {
            return Err(AccountFault::NotOpen);
        }
        let next = self.after(Call::Settle)?;
        if lines < fewest {
            return Err(AccountFault::TooFewLines);
        }
        Ok(next)
    }

    // Refuses a turn that is not to be; otherwise the state after it.
    final fn may_turn(&self) -> Result<MonthState, AccountFault>
        ensures { result ≡ answers (turn_refusal (stands self.now)) state.Waiting }
    {
        if !self.standing().opened {
            return Err(AccountFault::NotOpen);
        }
        self.stores_may_turn()?;
        self.after(Call::Turn)
    }
}
