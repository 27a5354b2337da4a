//! Stores by what they mean: ledgers, histories of calls, and what is promised after every history.
//! The functions here only carry the laws: each one's contract is a law, shown once for every kind.
#![tactic(auto)]

ghost use Rattle.std.specs.Prelude.{ℕ};
ghost use Rattle.histories.specs.Runs.{CallsHaveHistories, HistoriesDecide, BeginningsAreHistories};
ghost use Rattle.ledger.specs.Kinds.{Kind, LawfulKind};
ghost use Rattle.histories.specs.Unopened.{UnopenedHaveHistories};
ghost use Rattle.ledger.specs.Ledger.{Ledger, closed};
ghost use Rattle.ledger.specs.Steps.{machine};
ghost use Rattle.ledger.specs.History.{History, Had};
ghost use Rattle.ledger.specs.Promises.{Promised};
ghost use Rattle.ledger.specs.Unopened.{Unopened, NeverOpened};

// A store of a lawful kind keeps its promise after every history.
pub fn keeps_promise<T>()
    ensures { (kind : Kind T) → LawfulKind kind → (m : ℕ) (h : History T) (s : Ledger T) → Had kind m h s → Promised kind m h s }
{}

// Every list of calls after an opening has a history.
pub fn calls_have_histories<T>()
    ensures { (kind : Kind T) → CallsHaveHistories (machine kind) }
{}

// A history decides where the store stands.
pub fn histories_decide<T>()
    ensures { (kind : Kind T) → HistoriesDecide (machine kind) }
{}

// What a history began with is a history.
pub fn beginnings_are_histories<T>()
    ensures { (kind : Kind T) → BeginningsAreHistories (machine kind) }
{}

// A store that was never opened stands as it was made, and has refused every call as it should have.
pub fn shut_until_opened<T>()
    ensures { (kind : Kind T) → (h : History T) (s : Ledger T) → Unopened kind h s → NeverOpened kind h s }
{}

// Every list of calls that it refuses has a history.
pub fn unopened_have_histories<T>()
    ensures { (kind : Kind T) → UnopenedHaveHistories (machine kind) closed }
{}
