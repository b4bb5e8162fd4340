//! A worked example of the flat charge.
ghost use Rattle.std.specs.Prelude.{◌≡◌, pos, neg_ℤ};
ghost use Rattle.valuation.specs.Examples.{ValuationFacts};
ghost use Rattle.valuation.specs.FlatCharges.{flat_count};

use crate::flat_charge::FlatCharge;
use crate::valuation::Valuation;
use money::currency::Currency;

/// What a surplus and a deficiency of 101 count under the flat charge: 90 and -112 in every currency but the base.
/// With it stands that both valuations keep the laws.
pub fn worked_counts(base: Currency, currency: Currency) -> (i64, i64)
    ensures surplus { result.0 ≡ flat_count base currency (pos 101) }
    ensures deficiency { result.1 ≡ flat_count base currency (neg_ℤ (pos 101)) }
    ensures law { ValuationFacts }
{
    (
        FlatCharge.counted(base, currency, 101),
        FlatCharge.counted(base, currency, -101),
    )
}
