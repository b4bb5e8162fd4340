//! The book in memory and its calls.
#![tactic(auto)]

pub mod book;

pub use request::{fault, order};

#[cfg(test)]
mod tests {
    use crate::book::Book;
    use crate::fault::BookFault;
    use crate::order::{Opening, Order};
    use account::account::NO_FIGURES;
    use std::alloc::{AllocError, Global};
    use std::test::Fail;
    use valuation::flat_charge::FlatCharge;
    use valuation::lending_norms::LendingNorms;

    const CODE: &[u8] = b"AAAA0001";

    const POUNDS: &[u8] = b"GBP";

    const PRIORITY: &[u8] = b"GBPDKKEURNOKSEKUSD";

    const ORDERS: [Order<'_>; 5] = [
        Order::Opening(Opening {
            code: CODE,
            number: 7,
            base: POUNDS,
            level: 1,
            setting: 1,
            priority: PRIORITY,
        }),
        Order::Deposit {
            code: CODE,
            currency: POUNDS,
            amount: 500_000,
        },
        Order::Settlement {
            code: CODE,
            currency: POUNDS,
            amount: -30_000,
        },
        Order::Limits {
            code: CODE,
            currency: POUNDS,
            limit: 100_000,
            excess: 5,
        },
        Order::Margin {
            code: CODE,
            currency: POUNDS,
            requirement: 70_000,
            non_cash: 20_000,
        },
    ];

    // The price of one unit of each currency, in ten-thousandths.
    const RATES: [(&[u8], i64); 6] = [
        (b"GBP", 130_000),
        (b"DKK", 15_000),
        (b"EUR", 110_000),
        (b"NOK", 10_000),
        (b"SEK", 10_000),
        (b"USD", 100_000),
    ];

    // What is told of an answer: nothing where it is no refusal.
    fn told<T: Drop>(heap: Global, answer: Result<T, BookFault>) -> Result<String, AllocError> {
        match answer {
            Ok(_) => Ok(String::new(heap)),
            Err(fault) => {
                let refusal = fault.refusal();
                format!(in heap; "{refusal}")
            }
        }
    }

    // A book with one account, which holds some figures in pounds.
    fn opened(heap: Global) -> Result<Book<FlatCharge>, AllocError> {
        let mut book = Book::new(heap, 1, FlatCharge)?;
        for order in ORDERS {
            let _ = book.perform(order);
        }
        Ok(book)
    }

    #[test]
    fn figures_are_held(rt: HostRuntime) -> Result<(), Fail> {
        let book = opened(rt.alloc())?;
        assert_eq!(rt; book.account_count(), 1);
        assert!(rt; book.is_held(CODE), "opened");
        assert!(rt; !book.is_held(b"AAAA0002"), "not opened");
        assert!(rt; !book.is_held(b"aaaa0001"), "no code");
        let figures = book.figures(CODE, POUNDS).unwrap_or(NO_FIGURES);
        assert_eq!(rt; figures.cash, 500_000);
        assert_eq!(rt; figures.settlement, -30_000);
        assert_eq!(rt; figures.limit, 100_000);
        assert_eq!(rt; figures.excess, 5);
        assert_eq!(rt; figures.requirement, 70_000);
        assert_eq!(rt; figures.non_cash, 20_000);
        Ok(())
    }

    const QUESTIONS: [(&[u8], &[u8], &str); 4] = [
        (CODE, b"SEK", ""),
        (CODE, b"CHF", "book 7 AAAA0001 -"),
        (b"AAAA0002", b"CHF", "book 6 AAAA0002 -"),
        (b"aaaa0001", b"EUR", "book 4 - EUR"),
    ];

    #[test]
    fn questions_are_refused(rt: HostRuntime) -> Result<(), Fail> {
        let book = opened(rt.alloc())?;
        for (code, currency, answer) in QUESTIONS {
            let text = told(rt.alloc(), book.figures(code, currency))?;
            assert_eq!(rt; text.as_str(), answer);
        }
        Ok(())
    }

    const UNRATED: [(&[u8], i64, &str); 2] = [
        (b"SEK", 0, "account 12 AAAA0001 SEK"),
        (b"SEK", 1, "book 13 AAAA0001 GBP"),
    ];

    // The account stands at 500,000 - 100,000 + 20,000 - 70,000 hundredths.
    const RATED: [(&[u8], i64, &str); 3] = [
        (POUNDS, 350_001, "account 17 AAAA0001 GBP"),
        (POUNDS, 350_000, ""),
        (POUNDS, 1, "account 17 AAAA0001 GBP"),
    ];

    #[test]
    fn cash_is_called_back(rt: HostRuntime) -> Result<(), Fail> {
        let mut book = opened(rt.alloc())?;
        for (currency, amount, answer) in UNRATED {
            let text = told(rt.alloc(), book.call_back(CODE, currency, amount))?;
            assert_eq!(rt; text.as_str(), answer);
        }
        for (currency, rate) in RATES {
            let _ = book.perform(Order::Rate { currency, rate });
        }
        assert_eq!(rt; book.standing(CODE).unwrap_or(0), 350_000 * 130_000);
        for (currency, amount, answer) in RATED {
            let text = told(rt.alloc(), book.call_back(CODE, currency, amount))?;
            assert_eq!(rt; text.as_str(), answer);
        }
        assert_eq!(rt; book.standing(CODE).unwrap_or(1), 0);
        Ok(())
    }

    const BASES: [(&[u8], &[u8], &str); 4] = [
        (b"DKK", b"GBP", "book 10 AAAA0001 DKK"),
        (b"DKK", PRIORITY, "book 11 AAAA0001 DKK"),
        (b"SEK", PRIORITY, "book 11 AAAA0001 SEK"),
        (b"EUR", PRIORITY, ""),
    ];

    #[test]
    fn bases_are_admitted(rt: HostRuntime) -> Result<(), Fail> {
        let mut book = Book::new(rt.alloc(), 1, LendingNorms)?;
        for (base, priority, answer) in BASES {
            let opening = Opening {
                code: CODE,
                number: 7,
                base,
                level: 1,
                setting: 1,
                priority,
            };
            let text = told(rt.alloc(), book.open_account(opening))?;
            assert_eq!(rt; text.as_str(), answer);
        }
        Ok(())
    }
}
