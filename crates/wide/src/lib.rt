// Whole numbers of 128 bits, kept in two words of 64 bits.
#![tactic(auto)]

pub mod convert;
pub mod divide;
pub mod divisor;
mod long_division;
pub mod order;
mod shift;
pub mod sums;
pub mod wide;

pub use divide::Division;
pub use divisor::Divisor;
pub use wide::Wide;

#[cfg(test)]
mod tests {
    // Quotients of four lengths and their remainders, as another program has them.
    use crate::{Divisor, Wide};
    use std::process::Abort;
    use std::test::Fail;

    const MOST: Wide = Wide {
        high: u64::MAX,
        low: u64::MAX,
    };

    // A static, and a divisor that serves twice below: callers may do both with these types.
    static SEVEN: Wide = Wide { high: 0, low: 7 };

    fn divides(
        rt: &impl Abort,
        n: Wide,
        d: Wide,
        quotient: Wide,
        remainder: Wide,
    ) -> Result<(), Fail> {
        let parts = n.checked_div_rem(d).ok_or("no quotient")?;
        assert_eq!(rt; parts.quotient, quotient);
        assert_eq!(rt; parts.remainder, remainder);
        Ok(())
    }

    #[test]
    fn quotients_of_four_lengths(rt: HostRuntime) -> Result<(), Fail> {
        let q = Wide {
            high: 2_635_249_153_387_078_802,
            low: 5_270_498_306_774_157_604,
        };
        divides(
            &rt,
            MOST,
            Wide { high: 0, low: 7 },
            q,
            Wide { high: 0, low: 3 },
        )?;
        let d = Wide {
            high: 1,
            low: 12_345,
        };
        let q = Wide {
            high: 0,
            low: 18_446_744_073_709_539_271,
        };
        divides(
            &rt,
            MOST,
            d,
            q,
            Wide {
                high: 0,
                low: 152_399_024,
            },
        )?;
        let d = Wide {
            high: 1_311_768_467_463_790_320,
            low: 18_364_758_544_493_064_720,
        };
        let r = Wide {
            high: 81_985_529_216_487_122,
            low: 1_147_797_409_030_816_543,
        };
        divides(&rt, MOST, d, Wide { high: 0, low: 14 }, r)?;
        divides(&rt, d, MOST, Wide { high: 0, low: 0 }, d)
    }

    #[test]
    fn one_divisor_for_two_numbers(rt: HostRuntime) -> Result<(), Fail> {
        let divisor = Divisor::new(SEVEN).ok_or("no divisor")?;
        let most = MOST.divided_by(divisor);
        let seven = SEVEN.divided_by(divisor);
        assert_eq!(rt; most.remainder, Wide { high: 0, low: 3 });
        assert_eq!(rt; seven.quotient, Wide { high: 0, low: 1 });
        Ok(())
    }
}
