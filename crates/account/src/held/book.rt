//! Bookings on an account.
ghost use Rattle.std.specs.Prelude.{◌≡◌};
ghost use Rattle.account.specs.Answers.{state_of, booking_answer, chosen};
ghost use Rattle.account.specs.Bookings.{booking_change, change_figures};

use super::Account;
use crate::booking::Booking;
use crate::fault::AccountFault;
use money::code::Code;
use money::currency::Currency;

impl Account {
    /// The code.
    pub fn code(&self) -> Code
        ensures { result ≡ (state_of self.now).code }
    {
        self.state.code
    }

    /// The number of the optimization account that it belongs to.
    pub fn optimization(&self) -> u32
        ensures { result ≡ (state_of self.now).optimization }
    {
        self.state.optimization
    }

    /// Makes a booking in a currency; one that is refused leaves the account as it was.
    pub fn book(&mut self, currency: Currency, booking: Booking) -> Result<(), AccountFault>
        ensures answer { result ≡ booking_answer (state_of self.old) currency booking }
        ensures after { state_of self.new ≡ chosen result (state_of self.old) (change_figures (booking_change booking) currency (state_of self.old)) }
    {
        match booking {
            Booking::Deposit(amount) => self.deposit(currency, amount),
            Booking::Settlement(amount) => self.settle(currency, amount),
            Booking::Limits { limit, excess } => self.set_limits(currency, limit, excess),
            Booking::Margin {
                requirement,
                non_cash,
            } => self.set_margin(currency, requirement, non_cash),
            Booking::Callback(callback) => self.call_back(currency, callback),
        }
    }
}
