//! The interface of valuations.
ghost use Rattle.std.specs.Prelude.{◌≡◌};
ghost use Rattle.valuation.specs.Valuations.{Valuation, IsLawful};

use money::currency::Currency;

/// Tells what an amount counts for in the total of an account. The answers are fixed for the type, and answering
/// alters nothing.
pub trait Valuation {
    // what amounts count for, and which bases are admitted
    ghost meaning: { Valuation };

    /// What an amount of the currency counts for under the base, a surplus being positive. An amount above four times
    /// the bound, of either sign, counts 0, and so does every amount under a base that is not admitted.
    fn counted(&self, base: Currency, currency: Currency, amount: i64) -> i64
        ensures { result ≡ meaning.counts base currency amount };

    /// Whether accounts may have this base.
    fn admits(&self, base: Currency) -> bool
        ensures { result ≡ meaning.admits base };

    ghost lawful: { IsLawful meaning };
}
