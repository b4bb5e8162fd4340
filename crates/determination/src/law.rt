//! The law of determinations.
ghost use Rattle.determination.specs.Laws.{EveryDetermination};

/// Whatever the valuation, the market and the account: calls suffice, repayments never take too much,
/// and an account that pays or is paid stands at zero or above.
pub fn every_determination_is_safe()
    ensures { EveryDetermination }
{}
