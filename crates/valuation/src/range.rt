//! The amounts that count.
ghost use Rattle.std.specs.Prelude.{◌≡◌};
ghost use Rattle.valuation.specs.Counts.{is_in_range};

use money::range::BOUND;

// The largest amount that counts, as a surplus or as a deficiency.
const LARGEST: u64 = 4 * BOUND as u64;

// Whether the amount counts; the lowest number of its type is no exception.
pub fn is_in_range(amount: i64) -> bool
    ensures { result ≡ is_in_range amount }
{
    amount.unsigned_abs() <= LARGEST
}
