// Refusals: one enum for each layer of the engine, with a number for each case.
#![tactic(auto)]

ghost use Rattle.std.specs.Prelude.{◌≡◌};
ghost use Rattle.faults.specs.Numbers.{account_layer, account_number, book_layer, book_number, program_layer, program_number, store_layer, store_number};
ghost use Rattle.faults.specs.declared.AccountFault.TheVariants.{InStore};
ghost use Rattle.faults.specs.declared.ProgramFault.TheVariants.{InBook, InAccount};

// The layers of the engine. A refusal is told with the layer that gave it.
#[derive(Clone, Copy, PartialEq, Eq, Debug)]
pub enum Layer {
    Store,
    Book,
    Account,
    Program,
}

// What a store of portions, and the making of a portion, refuse.
#[derive(Clone, Copy, PartialEq, Eq, Debug)]
pub enum StoreFault {
    TooFewSlots,
    NotOpen,
    MonthOutOfRange,
    AmountTooLarge,
    MonthTaken,
    WantedTooLarge,
    LastMonth,
}

impl StoreFault {
    // The number under which the refusal is printed.
    pub fn number(self) -> u8
        ensures { result ≡ store_number self }
    {
        match self {
            StoreFault::TooFewSlots => 1,
            StoreFault::NotOpen => 1,
            StoreFault::MonthOutOfRange => 2,
            StoreFault::AmountTooLarge => 3,
            StoreFault::MonthTaken => 4,
            StoreFault::WantedTooLarge => 5,
            StoreFault::LastMonth => 6,
        }
    }

    // The layer that gave the refusal.
    pub fn layer(self) -> Layer
        ensures { result ≡ store_layer self }
    {
        Layer::Store
    }
}

// What a month book, and the price sources that it asks, refuse.
#[derive(Clone, Copy, PartialEq, Eq, Debug)]
pub enum BookFault {
    MonthOutOfRange,
    MarkOutOfRange,
    SalePriceTooHigh,
    ReadingTooLarge,
    BookComplete,
    NoPrice,
    HoursMissing,
    PriceOutOfRange,
}

impl BookFault {
    // The number under which the refusal is printed.
    pub fn number(self) -> u8
        ensures { result ≡ book_number self }
    {
        match self {
            BookFault::MonthOutOfRange => 2,
            BookFault::MarkOutOfRange => 11,
            BookFault::SalePriceTooHigh => 12,
            BookFault::ReadingTooLarge => 13,
            BookFault::BookComplete => 14,
            BookFault::NoPrice => 15,
            BookFault::HoursMissing => 16,
            BookFault::PriceOutOfRange => 17,
        }
    }

    // The layer that gave the refusal.
    pub fn layer(self) -> Layer
        ensures { result ≡ book_layer self }
    {
        Layer::Book
    }
}

// What an account refuses, and what a store inside it refuses, passed up whole.
#[derive(Clone, Copy, PartialEq, Eq, Debug)]
pub enum AccountFault {
    InStore(StoreFault),
    NotOpen,
    MonthOutOfRange,
    PowerOutOfRange,
    PeriodUnknown,
    PercentageTooHigh,
    OtherMonth,
    AlreadyEntered,
    NothingEntered,
    PeriodGoesOn,
    NotSettled,
    AlreadySettled,
    TooFewLines,
}

impl AccountFault {
    // The number under which the refusal is printed.
    pub fn number(self) -> u8
        ensures { result ≡ account_number self }
    {
        match self {
            AccountFault::InStore(fault) => fault.number(),
            AccountFault::NotOpen => 1,
            AccountFault::MonthOutOfRange => 2,
            AccountFault::PowerOutOfRange => 21,
            AccountFault::PeriodUnknown => 22,
            AccountFault::PercentageTooHigh => 23,
            AccountFault::OtherMonth => 24,
            AccountFault::AlreadyEntered => 25,
            AccountFault::NothingEntered => 26,
            AccountFault::PeriodGoesOn => 27,
            AccountFault::NotSettled => 28,
            AccountFault::AlreadySettled => 29,
            AccountFault::TooFewLines => 30,
        }
    }

    // The layer that gave the refusal: the store's own where it comes from there.
    pub fn layer(self) -> Layer
        ensures { result ≡ account_layer self }
    {
        match self {
            AccountFault::InStore(fault) => fault.layer(),
            _ => Layer::Account,
        }
    }
}

// This and the two impls of From below are by hand: clauses name the error that `?` makes, and a derived From promises none.
impl From<StoreFault> for AccountFault {
    ghost from_gives = { λ fault r. r ≡ InStore fault };

    fn from(fault: StoreFault) -> AccountFault {
        AccountFault::InStore(fault)
    }
}

// What the program refuses of a record file, and what the book or the account refuses, passed up whole.
#[derive(Clone, Copy, PartialEq, Eq, Debug)]
pub enum ProgramFault {
    InBook(BookFault),
    InAccount(AccountFault),
    FileEnds,
    Malformed,
    OutOfPlace,
}

impl ProgramFault {
    // The number under which the refusal is printed.
    pub fn number(self) -> u8
        ensures { result ≡ program_number self }
    {
        match self {
            ProgramFault::InBook(fault) => fault.number(),
            ProgramFault::InAccount(fault) => fault.number(),
            ProgramFault::FileEnds => 31,
            ProgramFault::Malformed => 32,
            ProgramFault::OutOfPlace => 33,
        }
    }

    // The layer that gave the refusal: that of the book, the account or the store where it comes from there.
    pub fn layer(self) -> Layer
        ensures { result ≡ program_layer self }
    {
        match self {
            ProgramFault::InBook(fault) => fault.layer(),
            ProgramFault::InAccount(fault) => fault.layer(),
            _ => Layer::Program,
        }
    }
}

impl From<BookFault> for ProgramFault {
    ghost from_gives = { λ fault r. r ≡ InBook fault };

    fn from(fault: BookFault) -> ProgramFault {
        ProgramFault::InBook(fault)
    }
}

impl From<AccountFault> for ProgramFault {
    ghost from_gives = { λ fault r. r ≡ InAccount fault };

    fn from(fault: AccountFault) -> ProgramFault {
        ProgramFault::InAccount(fault)
    }
}
