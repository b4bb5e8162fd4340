//! How a priority is read.
ghost use Rattle.std.specs.Prelude.{◌≡◌, count_by};
ghost use Rattle.account.specs.Orders.{order_in, each_once, of_all};
ghost use Rattle.account.specs.Priorities.{names_each_once, priority_of};
ghost use Rattle.money.specs.Currencies.{is_same};
ghost use Rattle.money.specs.Options.{before};

use super::Priority;
use money::currency::{ALL, COUNT, Currency};

/// How many letters a currency is written with.
const LETTERS: usize = 3;

impl Priority {
    /// The priority that the text writes: the letters of each currency once, one after another.
    pub fn read(text: &[u8]) -> Option<Priority>
        ensures { order_in result ≡ priority_of text.now }
    {
        Priority::of_order(read_order(text)?)
    }

    fn of_order(order: [Currency; COUNT]) -> Option<Priority>
        ensures { order_in result ≡ each_once order }
    {
        if names_each_once(&order) {
            Some(Priority { order })
        } else {
            None
        }
    }
}

// The currencies that the text names, if it is as long as all of them.
fn read_order(text: &[u8]) -> Option<[Currency; COUNT]>
    ensures { result ≡ of_all text.now }
{
    if text.len() != LETTERS * COUNT {
        return None;
    }
    let mut order = ALL;
    for (place, letters) in text.chunks_exact(LETTERS).enumerate() {
        order[place] = Currency::read(letters)?;
    }
    Some(order)
}

fn names_each_once(order: &[Currency; COUNT]) -> bool
    ensures { result ≡ names_each_once order.now }
{
    ALL.iter().all(|currency| times(*currency, order) == 1)
}

// How often the currency is named.
fn times(currency: Currency, order: &[Currency; COUNT]) -> usize
    ensures { result ≡ count_by (is_same currency) order.now }
{
    order
        .iter()
        .map(|other| usize::from(currency == *other))
        .sum()
}
