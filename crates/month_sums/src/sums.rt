// The sums of the input's month, by the library.
ghost use Rattle.std.specs.Prelude.{◌≡◌, ℕ, ◌<◌, ◌≤◌, length, pos, IfOk, IfErr, slice_index_or};
ghost use Rattle.hours.specs.Price.{Priced};
ghost use Rattle.month_sums.specs.Told.{PriceTold, SumsOf, Told};

use crate::complaint::Complaint;
use crate::input::Input;
use crate::refusal::{complaint_of, hour_line, refused_in};
use hours::{HourPrices, MonthPrice, MonthSums, StandIn, Tariff, sum_month};

// The place of the first price that no source takes, or their count where every one is in range.
fn first_refused(month: u16, prices: &[i32]) -> usize
    ensures within { result ≤ length prices.now }
    ensures before { (k : ℕ) → k < result → Priced (slice_index_or prices.now k (pos 0)) }
    ensures found { result < length prices.now → Priced (slice_index_or prices.now result (pos 0)) → ⊥ }
{
    prices
        .iter()
        .position(|price| MonthPrice::new(month, *price).is_err())
        .unwrap_or(prices.len())
}

// The hours' own prices over the month price. A price out of range is told with its line.
fn source_of(
    month: u16,
    price: i32,
    prices: Vec<i32>,
) -> Result<StandIn<HourPrices, MonthPrice>, Complaint>
    ensures upper { IfOk result (λ s. (s.upper.month ≡ month) × (s.upper.prices.items ≡ prices.items)) }
    ensures lower { IfOk result (λ s. (s.lower.month ≡ month) × (s.lower.price ≡ price)) }
    ensures refusal { IfErr result (λ e. PriceTold price prices.items e) }
{
    let lower = MonthPrice::new(month, price).map_err(|fault| refused_in(1, fault))?;
    let line = hour_line(first_refused(month, &prices));
    let upper = HourPrices::new(month, prices).map_err(|fault| refused_in(line, fault))?;
    Ok(StandIn { upper, lower })
}

// The sums over all hours of the input, zone by zone as marked.
pub(crate) fn sums_of(input: Input) -> Result<MonthSums, Complaint>
    ensures sums { IfOk result (λ s. SumsOf input s.month s.totals) }
    ensures refusal { IfErr result (λ e. Told input e) }
{
    let Input {
        terms,
        marks,
        hours,
    } = input;
    let mut source = source_of(terms.month, terms.price, hours.prices)?;
    let sale = terms.sale;
    let tariff = Tariff { marks, sale };
    sum_month(terms.month, tariff, hours.readings.as_slice(), &mut source).map_err(
        |refused| complaint_of(refused, &marks),
    )
}
