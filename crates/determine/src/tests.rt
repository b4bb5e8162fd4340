//! Determinations worked by hand, through the public functions.
use crate::determine::determine;
use crate::market::Market;
use crate::quote::Quote;
use crate::worth::{standing, total};
use account::held::Account;
use account::priority::Priority;
use account::terms::{DebitSetting, Level};
use determination::determination::Determination;
use money::code::Code;
use money::currency::Currency;
use money::status::Status;
use valuation::flat_charge::FlatCharge;
use valuation::lending_norms::LendingNorms;
use valuation::valuation::Valuation;

const BOUND: i64 = 100_000_000_000;

// The price of one unit of each currency in book order, in ten-thousandths.
const RATES: [i64; 6] = [130_000, 15_000, 110_000, 10_000, 10_000, 100_000];

const NONE: [i64; 6] = [0; 6];

// What an account holds in a currency.
#[derive(Clone, Copy)]
struct Held {
    currency: Currency,
    cash: i64,
    limit: i64,
    excess: i64,
    requirement: i64,
    settlement: i64,
}

const NOTHING: Held = Held {
    currency: Currency::Eur,
    cash: 0,
    limit: 0,
    excess: 0,
    requirement: 0,
    settlement: 0,
};

// Swedish kronor: 200,000 are due, and without them the requirement is short by 500,000.
const SHORT: Held = Held {
    currency: Currency::Sek,
    cash: 500_000,
    requirement: 1_000_000,
    settlement: 200_000,
    ..NOTHING
};

const DOLLARS: Held = Held {
    currency: Currency::Usd,
    requirement: 20_000,
    ..NOTHING
};

// An account at level 1 and setting 1 in euro, unless a case says otherwise; what it holds, and what comes of it.
#[derive(Clone, Copy)]
struct Case {
    base: Currency,
    level: Level,
    setting: DebitSetting,
    priority: &'static [u8],
    shut: Option<Currency>,
    held: [Held; 2],
    calls: [i64; 6],
    repayments: [i64; 6],
    shares: [i64; 6],
}

// Euro worth 11,000,000,000 points meet Swedish kronor at -7,700,000,000.
const REPAYMENT: Case = Case {
    base: Currency::Eur,
    level: Level::MarginRequirement,
    setting: DebitSetting::MarginCurrency,
    priority: b"SEKEURGBPDKKNOKUSD",
    shut: None,
    held: [
        SHORT,
        Held {
            cash: 100_000,
            ..NOTHING
        },
    ],
    calls: NONE,
    repayments: [0, 0, 30_000, 0, 0, 0],
    shares: [0, 0, -30_000, 0, 0, 0],
};

const CALL: Case = Case {
    held: [
        SHORT,
        Held {
            cash: 50_000,
            ..NOTHING
        },
    ],
    calls: [0, 0, 0, 0, 220_000, 0],
    repayments: NONE,
    shares: [0, 0, 0, 0, 220_000, 0],
    ..REPAYMENT
};

const LEVEL_2: Case = Case {
    level: Level::CashOptimization,
    repayments: [0, 0, 50_000, 0, 0, 0],
    shares: [0, 0, -50_000, 0, 200_000, 0],
    ..REPAYMENT
};

// Under the flat charge.
const CASES: [Case; 12] = [
    REPAYMENT,
    CALL,
    LEVEL_2,
    // The call in the base.
    Case {
        setting: DebitSetting::BaseCurrency,
        calls: [0, 0, 20_000, 0, 0, 0],
        shares: [0, 0, 20_000, 0, 0, 0],
        ..CALL
    },
    // The base is shut, so the first open currency is called.
    Case {
        setting: DebitSetting::BaseCurrency,
        shut: Some(Currency::Eur),
        calls: [0, 0, 0, 0, 220_000, 0],
        ..CALL
    },
    // The deficiency is in a shut currency, and the base has none.
    Case {
        base: Currency::Gbp,
        shut: Some(Currency::Sek),
        calls: [0, 0, 25_000, 0, 0, 0],
        shares: [0, 0, 25_000, 0, 0, 0],
        ..CALL
    },
    // Two deficiencies; the rest of the points is called in the first currency.
    Case {
        priority: b"SEKUSDGBPDKKEURNOK",
        held: [
            Held {
                cash: 0,
                requirement: 100_000,
                settlement: 0,
                ..SHORT
            },
            DOLLARS,
        ],
        calls: [0, 0, 0, 0, 130_000, 20_000],
        shares: [0, 0, 0, 0, 130_000, 20_000],
        ..CALL
    },
    // A total of 0.
    Case {
        held: [
            SHORT,
            Held {
                cash: 70_000,
                ..NOTHING
            },
        ],
        repayments: NONE,
        shares: NONE,
        ..REPAYMENT
    },
    // What is over is in a shut currency.
    Case {
        shut: Some(Currency::Eur),
        repayments: NONE,
        shares: NONE,
        ..REPAYMENT
    },
    // At level 2, in the base, with 4,000 due to the participant: 5,500,000,000 less 1,100,000,000 points are short.
    Case {
        setting: DebitSetting::BaseCurrency,
        shut: Some(Currency::Sek),
        held: [
            SHORT,
            Held {
                cash: 10_000,
                settlement: -4_000,
                ..NOTHING
            },
        ],
        calls: [0, 0, 40_000, 0, 0, 0],
        repayments: NONE,
        shares: [0, 0, 36_000, 0, 0, 0],
        ..LEVEL_2
    },
    // What is repaid leaves the excess.
    Case {
        held: [
            SHORT,
            Held {
                cash: 100_000,
                excess: 80_000,
                ..NOTHING
            },
        ],
        repayments: [0, 0, 20_000, 0, 0, 0],
        shares: [0, 0, -20_000, 0, 0, 0],
        ..REPAYMENT
    },
    // All cash is the bound, and all of it has to stay but 1.
    Case {
        held: [
            NOTHING,
            Held {
                cash: BOUND,
                limit: BOUND - 1,
                ..NOTHING
            },
        ],
        repayments: [0, 0, 1, 0, 0, 0],
        shares: [0, 0, -1, 0, 0, 0],
        ..REPAYMENT
    },
];

// A call of 1 on top of cash at the bound.
const PAST_BOUND: Case = Case {
    held: [
        NOTHING,
        Held {
            cash: BOUND,
            limit: BOUND,
            requirement: 1,
            ..NOTHING
        },
    ],
    ..REPAYMENT
};

fn market(shut: Option<Currency>) -> Option<Market> {
    let mut quotes = RATES.map(|rate| Quote {
        rate,
        status: Status::Open,
    });
    if let Some(currency) = shut {
        quotes[currency.index()].status = Status::Shut;
    }
    Market::new(quotes)
}

fn account(case: Case) -> Option<Account> {
    let code = Code::read(b"AAAA0001")?;
    let priority = Priority::read(case.priority)?;
    let mut account = Account::new(code, 7, case.base, case.level, case.setting, priority);
    for held in case.held {
        let _ = account.deposit(held.currency, held.cash);
        let _ = account.set_limits(held.currency, held.limit, held.excess);
        let _ = account.set_margin(held.currency, held.requirement, 0);
        let _ = account.settle(held.currency, held.settlement);
    }
    Some(account)
}

fn determined<V: Valuation>(valuation: &V, case: Case) -> Option<Determination> {
    let market = market(case.shut)?;
    let account = account(case)?;
    determine(valuation, &market, &account).ok()
}

#[test]
fn cases_are_determined(rt: HostRuntime) {
    for case in CASES {
        let found = determined(&FlatCharge, case);
        assert_eq!(rt; found.map(|d| d.calls), Some(case.calls));
        assert_eq!(rt; found.map(|d| d.repayments), Some(case.repayments));
        assert_eq!(rt; found.map(|d| d.shares), Some(case.shares));
    }
}

#[test]
fn norms_charge_no_deficiency(rt: HostRuntime) {
    let found = determined(&LendingNorms, LEVEL_2);
    assert_eq!(rt; found.map(|d| d.repayments), Some([0, 0, 54_545, 0, 0, 0]));
    assert_eq!(rt;
        found.map(|d| d.shares),
        Some([0, 0, -54_545, 0, 200_000, 0])
    );
}

#[test]
fn cash_past_the_bound_is_refused(rt: HostRuntime) {
    let market = market(None);
    let account = account(PAST_BOUND);
    let fault = market
        .zip(account)
        .and_then(|(m, a)| determine(&FlatCharge, &m, &a).err());
    assert_eq!(rt; fault.map(|fault| fault.refusal().cause.number()), Some(15));
    assert!(rt; fault.and_then(|fault| fault.refusal().currency) == Some(Currency::Eur));
}

// Open settlement enters the total and not the standing.
#[test]
fn totals_and_standings(rt: HostRuntime) {
    let market = market(None);
    let account = account(CALL);
    let sum = market.zip(account).map(|(m, a)| total(&FlatCharge, &m, &a));
    assert_eq!(rt; sum, Some(-2_200_000_000));
    let stand = market
        .zip(account)
        .map(|(m, a)| standing(&FlatCharge, &m, &a));
    assert_eq!(rt; stand, Some(0));
}
