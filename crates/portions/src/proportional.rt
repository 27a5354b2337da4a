ghost use Rattle.std.specs.Prelude.{◌≡◌, ◌*◌, ◌/◌, ◌<◌, ◌≤◌};
ghost use Rattle.portions.specs.Listed.{listed};
ghost use Rattle.portions.specs.Taking.{proportional};
ghost use Rattle.portions.specs.TakingByPlace.{ProportionalByPlace};
ghost use Rattle.portions.specs.Takes.{proportional_length, proportional_bounded, proportional_sum};

use crate::amounts::Amounts;
use crate::rules::Rule;

// Takes from each portion in proportion to its amount.
#[derive(Clone, Copy)]
pub struct Proportional;

// w × s / t, rounded down. A cast, since `try_from` would answer a Result where the share always fits.
fn share(w: u64, s: u64, t: u64) -> u64
    requires positive { 0 < t }
    requires part { w ≤ t }
    ensures { result ≡ w * s / t }
{
    (u128::from(w) * u128::from(s) / u128::from(t)) as u64
}

// The share of each amount: the shares up to it, less those before it.
fn take_shares(left: &Amounts, wanted: u32) -> Amounts
    ensures { listed result ≡ proportional (listed left.now) wanted }
{
    let total = left.total();
    let w = u64::from(wanted).min(total);
    let t = total.max(1);
    let mut takings = Amounts::new();
    let mut before = 0;
    for &amount in left.as_slice() {
        let after = before + u64::from(amount);
        let taking = share(w, after, t) - share(w, before, t);
        takings.push(taking as u32);
        before = after;
    }
    takings
}

impl Rule for Proportional {
    ghost gives = { λ _ _ ls w. proportional ls w };

    ghost sized = { λ s m w ls few. proportional_length ls w };

    ghost bounded = { λ s m w ls few i. proportional_bounded ls w i };

    ghost full = { λ s m w ls few. proportional_sum ls w };

    fn give(&self, _month: u16, left: &Amounts, wanted: u32) -> Amounts {
        take_shares(left, wanted)
    }
}

// From the amount at each place the share of those up to it, less that of those before it.
pub fn takes_by_place()
    ensures { ProportionalByPlace }
{}
