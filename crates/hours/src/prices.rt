// Sources of prices, in gr per MWh.
ghost use Rattle.std.specs.Prelude.{◌≡◌, ℕ, List, ℤ, Ok, Err, Decides, Option};
ghost use Rattle.std.specs.Option.{option_map, option_or};
ghost use Rattle.hours.specs.Price.{AllPriced, Priced, Ranged, from_some, hour_gives, month_gives, still_option, still_pair, unless_some};
ghost use Rattle.std.proofs.Common.{rules};

use faults::BookFault;

// A source of prices. Its meaning is a state: `gives` is the price for a month and a place in it, or none,
// and `asked` is what asking makes of the state. Prices are in range, and asking changes no later answer.
// Month and place are its one question, asked by one call alone, so they are no struct.
pub trait PriceSource {
    ghost State: { Type 0 };

    ghost state: { Self → State };

    ghost gives: { State → ℕ → ℕ → Option ℤ };

    ghost asked: { State → ℕ → ℕ → State };

    fn ask(&mut self, month: u16, place: u16) -> Option<i32>
        ensures answer { result ≡ gives (state self.old) month place }
        ensures after { state self.new ≡ asked (state self.old) month place };

    ghost ranged: { (x : Self) (m p : ℕ) → Ranged (gives (state x) m p) };

    ghost steady: { (s : State) (m p n q : ℕ) → gives (asked s m p) n q ≡ gives s n q };
}

// A source that asking leaves as it is.
pub trait StillSource: PriceSource {
    ghost still: { (s : Self.State) (m p : ℕ) → Self.asked s m p ≡ s };
}

fn in_range(price: i32) -> bool
    ensures { Decides result (Priced price) }
{
    (-1_000_000..=1_000_000).contains(&price)
}

// A single price for one month.
#[derive(Drop)]
pub struct MonthPrice {
    month: u16,
    price: i32,
    ghost range: { Priced price },
}

impl MonthPrice {
    // The source of `price` for `month`; 17 where the price is out of range.
    pub fn new(month: u16, price: i32) -> Result<Self, BookFault>
        ensures { elim result [ Ok s ↦ (s.month ≡ month) × (s.price ≡ price) | Err f ↦ (Priced price → ⊥) × (f ≡ BookFault.PriceOutOfRange) ] }
    {
        if !in_range(price) {
            return Err(BookFault::PriceOutOfRange);
        }
        Ok(MonthPrice { month, price })
    }
}

impl PriceSource for MonthPrice {
    ghost State = { ℕ × ℤ };

    ghost state = { λ x. (x.month, x.price) };

    ghost gives = { λ s m p. month_gives s.0 s.1 m p };

    ghost asked = { λ s m p. s };

    ghost ranged = { Prim.search rules };

    ghost steady = { Prim.search rules };

    fn ask(&mut self, month: u16, _place: u16) -> Option<i32> {
        (month == self.month).then_some(self.price)
    }
}

impl StillSource for MonthPrice {
    ghost still = { Prim.search rules };
}

// Hourly prices for one month, from its first hour on, and none past their end. The list is owned, since a source may stay
// longer than what brought it.
#[derive(Drop)]
pub struct HourPrices {
    month: u16,
    prices: Vec<i32>,
    ghost range: { AllPriced prices.items },
}

fn all_in_range(prices: &[i32]) -> bool
    ensures { Decides result (AllPriced prices.now) }
{
    prices.iter().all(|price| in_range(*price))
}

impl HourPrices {
    // The source of `prices` for `month`; 17 where one of them is out of range.
    pub fn new(month: u16, prices: Vec<i32>) -> Result<Self, BookFault>
        ensures { elim result [ Ok s ↦ (s.month ≡ month) × (s.prices.items ≡ prices.items) | Err f ↦ (AllPriced prices.items → ⊥) × (f ≡ BookFault.PriceOutOfRange) ] }
    {
        if !all_in_range(&prices) {
            return Err(BookFault::PriceOutOfRange);
        }
        Ok(HourPrices { month, prices })
    }
}

impl PriceSource for HourPrices {
    ghost State = { ℕ × List ℤ };

    ghost state = { λ x. (x.month, x.prices.items) };

    ghost gives = { λ s m p. hour_gives s.0 s.1 m p };

    ghost asked = { λ s m p. s };

    ghost ranged = { Prim.search rules };

    ghost steady = { Prim.search rules };

    fn ask(&mut self, month: u16, place: u16) -> Option<i32> {
        if month != self.month {
            return None;
        }
        self.prices.get(usize::from(place)).copied()
    }
}

impl StillSource for HourPrices {
    ghost still = { Prim.search rules };
}

// One source over another: the lower is asked, and answers, where the upper has no price.
#[derive(Drop)]
pub struct StandIn<U, L> {
    pub upper: U,
    pub lower: L,
}

impl<U: PriceSource, L: PriceSource> PriceSource for StandIn<U, L> {
    ghost State = { U.PriceSource.State × L.PriceSource.State };

    ghost state = { λ x. (U.PriceSource.state x.upper, L.PriceSource.state x.lower) };

    ghost gives = { λ s m p. option_or (U.PriceSource.gives s.0 m p) (L.PriceSource.gives s.1 m p) };

    ghost asked = { λ s m p. (U.PriceSource.asked s.0 m p, unless_some (U.PriceSource.gives s.0 m p) s.1 (L.PriceSource.asked s.1 m p)) };

    ghost ranged = { Prim.search rules };

    ghost steady = { Prim.search rules };

    fn ask(&mut self, month: u16, place: u16) -> Option<i32> {
        // A match: of what `or_else` lends to a closure that it does not call, a proof knows nothing afterwards.
        match self.upper.ask(month, place) {
            Some(price) => Some(price),
            None => self.lower.ask(month, place),
        }
    }
}

impl<U: StillSource, L: StillSource> StillSource for StandIn<U, L> {
    ghost still = { λ s m p. still_pair s.0 s.1 _ _ (U.PriceSource.gives s.0 m p) (U.StillSource.still s.0 m p) (L.StillSource.still s.1 m p) };
}

// A source that may be missing: where there is no source there is no price.
impl<S: PriceSource> PriceSource for Option<S> {
    ghost State = { Option S.PriceSource.State };

    ghost state = { λ x. option_map S.PriceSource.state x };

    ghost gives = { λ s m p. from_some (λ a. S.PriceSource.gives a m p) s };

    ghost asked = { λ s m p. option_map (λ a. S.PriceSource.asked a m p) s };

    ghost ranged = { Prim.search rules };

    ghost steady = { Prim.search rules };

    fn ask(&mut self, month: u16, place: u16) -> Option<i32> {
        self.as_mut()?.ask(month, place)
    }
}

impl<S: StillSource> StillSource for Option<S> {
    ghost still = { λ s m p. still_option (λ a. S.PriceSource.asked a m p) (λ a. S.StillSource.still a m p) s };
}
