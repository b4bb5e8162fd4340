//! The lending norms.
ghost use Rattle.std.specs.Prelude.{◌≡◌};
ghost use Rattle.valuation.specs.Laws.{InRange};
ghost use Rattle.valuation.specs.Norms.{at_norm, lending_norms, row_of};
ghost use Rattle.valuation.specs.NormLaws.{norms-lawful};

use crate::range::is_in_range;
use crate::valuation::Valuation;
use money::currency::{COUNT, Currency};

/// The norms in percent by which a surplus counts. A deficiency counts in full. Only some bases are admitted.
#[derive(Clone, Copy)]
pub struct LendingNorms;

// A row for each base and in it a norm for each currency, both in book order. A base with no row is not admitted.
const NORMS: [Option<[u8; COUNT]>; COUNT] = [
    Some([100, 96, 95, 95, 96, 94]), // GBP
    None, // DKK
    Some([95, 99, 100, 94, 96, 95]), // EUR
    Some([95, 94, 94, 100, 95, 93]), // NOK
    None, // SEK
    Some([94, 95, 95, 93, 95, 100]), // USD
];

// The row of a base, if it has one.
fn row_of(base: Currency) -> Option<[u8; COUNT]>
    ensures { result ≡ row_of base }
{
    NORMS[base.index()]
}

// A surplus at its norm, rounded down; a deficiency in full.
fn at_norm(norm: u8, amount: i64) -> i64
    requires { InRange amount }
    ensures { result ≡ at_norm norm amount }
{
    if amount < 0 {
        return amount;
    }
    let surplus = amount.unsigned_abs();
    (u64::from(norm) * surplus / 100) as i64
}

impl Valuation for LendingNorms {
    ghost meaning = { lending_norms };

    ghost lawful = { norms-lawful };

    #[tactic(auto, unfolding(crate::specs::Norms::norm_count))]
    fn counted(&self, base: Currency, currency: Currency, amount: i64) -> i64 {
        let Some(norms) = row_of(base) else {
            return 0;
        };
        if !is_in_range(amount) {
            return 0;
        }
        at_norm(norms[currency.index()], amount)
    }

    fn admits(&self, base: Currency) -> bool {
        row_of(base).is_some()
    }
}
