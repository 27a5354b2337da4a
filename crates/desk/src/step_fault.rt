// Why a record has no answer.
ghost use Rattle.std.specs.Prelude.{◌≡◌};
ghost use Rattle.desk.specs.declared.step_fault.StepFault.TheVariants.{Refused, NoMemory};

use faults::ProgramFault;
use std::alloc::AllocError;

// Why a record has no answer: it is refused, or there is no memory for the hour prices that it brings. The records' `Unwritten`
// has the same cases, and says why a record was not written: two questions, of which either may get a case more.
#[derive(Clone, Copy, PartialEq, Eq, Debug)]
pub enum StepFault {
    Refused(ProgramFault),
    NoMemory,
}

// Both by hand: clauses name the error that `?` makes, and a derived From promises none.
impl From<ProgramFault> for StepFault {
    ghost from_gives = { λ fault r. r ≡ Refused fault };

    fn from(fault: ProgramFault) -> StepFault {
        StepFault::Refused(fault)
    }
}

impl From<AllocError> for StepFault {
    ghost from_gives = { λ _ r. r ≡ NoMemory };

    fn from(_: AllocError) -> StepFault {
        StepFault::NoMemory
    }
}
