// Numbers without their last bits.
ghost use Rattle.std.specs.Prelude.{◌≡◌, ◌/◌, ◌^◌, ◌<◌};
ghost use Rattle.wide.specs.Value.{value};

use crate::wide::Wide;

impl Wide {
    /// The number without its last `by` bits: its quotient by 2^`by`, rounded down.
    pub(crate) fn without_last(self, by: u32) -> Wide
        requires { by < 128 }
        ensures { value result ≡ value self / 2 ^ by }
    {
        let number = u128::from(self) >> by;
        Wide {
            high: (number >> 64) as u64,
            low: (number & u128::from(u64::MAX)) as u64,
        }
    }
}
