//! What an amount counts for in the total of an account.
#![tactic(auto)]

pub mod flat_charge;
pub mod lending_norms;
mod range;
pub mod valuation;
pub mod worked;

#[cfg(test)]
mod tests {
    use crate::flat_charge::FlatCharge;
    use crate::lending_norms::LendingNorms;
    use crate::valuation::Valuation;
    use crate::worked::worked_counts;
    use money::currency::Currency;

    const BASE: Currency = Currency::Eur;

    // Its norm under the base is 96.
    const OTHER: Currency = Currency::Sek;

    // An amount, and what it counts outside the base: under the flat charge, and under the norms.
    const COUNTS: [(i64, i64, i64); 15] = [
        (0, 0, 0),
        (1, 0, 0),
        (-1, -2, -1),
        (9, 8, 8),
        (-9, -10, -9),
        (10, 9, 9),
        (-10, -11, -10),
        (11, 9, 10),
        (-11, -13, -11),
        (101, 90, 96),
        (-101, -112, -101),
        (100_000_000_000, 90_000_000_000, 96_000_000_000),
        (-100_000_000_000, -110_000_000_000, -100_000_000_000),
        (400_000_000_000, 360_000_000_000, 384_000_000_000),
        (-400_000_000_000, -440_000_000_000, -400_000_000_000),
    ];

    const BEYOND: [i64; 4] = [400_000_000_001, -400_000_000_001, i64::MAX, i64::MIN];

    #[test]
    fn amounts_count(rt: HostRuntime) {
        for (amount, charged, at_norm) in COUNTS {
            assert_eq!(rt; FlatCharge.counted(BASE, BASE, amount), amount);
            assert_eq!(rt; FlatCharge.counted(BASE, OTHER, amount), charged);
            assert_eq!(rt; LendingNorms.counted(BASE, BASE, amount), amount);
            assert_eq!(rt; LendingNorms.counted(BASE, OTHER, amount), at_norm);
            assert_eq!(rt; LendingNorms.counted(OTHER, BASE, amount), 0);
        }
        for amount in BEYOND {
            assert_eq!(rt; FlatCharge.counted(BASE, BASE, amount), 0);
            assert_eq!(rt; FlatCharge.counted(BASE, OTHER, amount), 0);
            assert_eq!(rt; LendingNorms.counted(BASE, BASE, amount), 0);
            assert_eq!(rt; LendingNorms.counted(BASE, OTHER, amount), 0);
        }
        assert!(rt; FlatCharge.admits(OTHER));
        assert!(rt; LendingNorms.admits(BASE) && !LendingNorms.admits(OTHER));
        assert_eq!(rt; worked_counts(BASE, OTHER), (90, -112));
    }
}
