//! The determination of one account.
ghost use Rattle.std.specs.Prelude.{◌≡◌, true};
ghost use Rattle.account.specs.Answers.{state_of};
ghost use Rattle.determination.specs.Laws.{DeterminationLaw};
ghost use Rattle.determine.specs.Answers.{determination_answer, answer_at, DeterminedBy};
ghost use Rattle.determine.specs.Cases.{market_at, state_in};
ghost use Rattle.determine.specs.Markets.{market_in};
ghost use Rattle.determine.specs.Points.{AllPoints};

use crate::case::Case;
use crate::market::Market;
use crate::points::Points;
use crate::worth::total;
use account::fault::AccountFault;
use account::held::Account;
use determination::determination::Determination;
use money::cause::AccountCause;
use valuation::valuation::Valuation;

/// Determines what an account pays or gets. It is refused where held cash and a call would pass the bound; then the
/// first such currency in book order is told.
pub fn determine<V: Valuation>(
    valuation: &V,
    market: &Market,
    account: &Account,
) -> Result<Determination, AccountFault>
    ensures answer { result ≡ determination_answer V.meaning (market_in market.now) (state_of account.now) }
    ensures determined { V.meaning.admits (state_of account.now).base ≡ true → DeterminedBy V.meaning (market_in market.now) (state_of account.now) result }
    ensures law { V.meaning.admits (state_of account.now).base ≡ true → DeterminationLaw V.meaning (market_in market.now) (state_of account.now) }
{
    let total = total(valuation, market, account);
    let case = Case {
        market: *market,
        account: *account,
    };
    case.determination(total)
}

impl Case {
    fn determination(&self, total: i64) -> Result<Determination, AccountFault>
        requires { AllPoints total }
        ensures { result ≡ answer_at (market_at self.now) (state_in self.now) total }
    {
        let calls = self.calls(Points::short(total));
        if let Some(currency) = self.past_bound(&calls) {
            return Err(self.account.fault_on(currency, AccountCause::PastBound));
        }
        let repayments = self.repayments(Points::over(total));
        Ok(Determination {
            calls: calls.list,
            repayments: repayments.list,
            shares: self.shares(&calls, &repayments),
        })
    }
}
