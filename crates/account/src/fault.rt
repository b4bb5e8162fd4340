//! What the account layer refuses.
use money::cause::AccountCause;
use money::refusal::Fault;

/// A fault found by the account layer, with the code and the currency of the call where they are well formed.
pub type AccountFault = Fault<AccountCause>;
