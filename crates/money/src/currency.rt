//! The currencies of the book.
ghost use Rattle.std.specs.Prelude.{◌≡◌, Some};
ghost use Rattle.money.specs.Currencies.{place, letters, spelt, is_written, currency_of};

use std::fmt;

/// A currency; the variants stand in book order.
#[derive(Clone, Copy, PartialEq, Eq)]
pub enum Currency {
    Gbp,
    Dkk,
    Eur,
    Nok,
    Sek,
    Usd,
}

/// How many currencies there are.
pub const COUNT: usize = 6;

/// The currencies in book order.
pub const ALL: [Currency; COUNT] = [
    Currency::Gbp,
    Currency::Dkk,
    Currency::Eur,
    Currency::Nok,
    Currency::Sek,
    Currency::Usd,
];

impl Currency {
    /// The place in book order, from 0.
    pub fn index(self) -> usize
        ensures { result ≡ place self }
    {
        self as usize
    }

    /// The three letters that the currency is written with.
    pub fn letters(self) -> [u8; 3]
        ensures { result ≡ letters self }
    {
        match self {
            Currency::Gbp => [b'G', b'B', b'P'],
            Currency::Dkk => [b'D', b'K', b'K'],
            Currency::Eur => [b'E', b'U', b'R'],
            Currency::Nok => [b'N', b'O', b'K'],
            Currency::Sek => [b'S', b'E', b'K'],
            Currency::Usd => [b'U', b'S', b'D'],
        }
    }

    /// The currency that the text writes, if it is the letters of one.
    #[tactic(auto, unfolding(crate::specs::Currencies::currency_of))]
    pub fn read(text: &[u8]) -> Option<Currency>
        ensures { result ≡ currency_of text.now }
    {
        ALL.iter()
            .copied()
            .find(|currency| currency.is_written(text))
    }

    fn characters(self) -> [char; 3]
        ensures { spelt result ≡ letters self }
    {
        self.letters().map(char::from)
    }

    fn is_written(self, text: &[u8]) -> bool
        ensures { result ≡ is_written text.now self }
    {
        text == self.letters().as_slice()
    }
}

impl fmt::Display for Currency {
    ghost output = { λ c. Some (letters c) };

    fn fmt<W: fmt::Write>(&self, f: &mut fmt::Formatter<W>) -> fmt::Result {
        let [a, b, c] = self.characters();
        write!(f, "{a}{b}{c}")
    }
}
