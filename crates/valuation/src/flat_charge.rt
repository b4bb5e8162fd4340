//! The flat charge.
ghost use Rattle.std.specs.Prelude.{◌≡◌, pos, ◌≤ℤ◌, unsigned_abs};
ghost use Rattle.valuation.specs.FlatCharges.{charge, charged, flat_charge};
ghost use Rattle.valuation.specs.Laws.{InRange};
ghost use Rattle.valuation.specs.ChargeLaws.{flat-lawful};

use crate::range::is_in_range;
use crate::valuation::Valuation;
use money::currency::Currency;

/// A charge of ten percent on every amount outside the base. All bases are admitted.
#[derive(Clone, Copy)]
pub struct FlatCharge;

// The charge on an absolute amount: ten in a hundred, rounded up.
fn charge(amount: i64) -> i64
    requires { (InRange amount) × (pos 0 ≤ℤ amount) }
    ensures { result ≡ pos (charge (unsigned_abs amount)) }
{
    (10 * amount + 99) / 100
}

// A surplus less its charge, a deficiency plus its charge.
fn charged(amount: i64) -> i64
    requires { InRange amount }
    ensures { result ≡ charged amount }
{
    if amount < 0 {
        let deficiency = -amount;
        -(deficiency + charge(deficiency))
    } else {
        amount - charge(amount)
    }
}

impl Valuation for FlatCharge {
    ghost meaning = { flat_charge };

    ghost lawful = { flat-lawful };

    #[tactic(auto, unfolding(crate::specs::FlatCharges::flat_count))]
    fn counted(&self, base: Currency, currency: Currency, amount: i64) -> i64 {
        if !is_in_range(amount) {
            return 0;
        }
        if base == currency {
            return amount;
        }
        charged(amount)
    }

    fn admits(&self, _base: Currency) -> bool {
        true
    }
}
