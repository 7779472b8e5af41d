ghost use Rattle.std.specs.Prelude.{◌≡◌, ◌%◌};
ghost use Rattle.line.specs.Values.{number_of};
ghost use Rattle.line.specs.Conversions.{IsSixBit};

use crate::six_bit::SixBit;
use crate::too_large::TooLarge;
use arithmetic::Numbered;

impl SixBit {
    pub const ZERO: SixBit = SixBit { number: 0 };

    // The lowest six bits of a number.
    pub fn lowest(number: u128) -> SixBit
        ensures { number_of result ≡ number % 64 }
    {
        SixBit {
            number: (number % 64) as u8,
        }
    }
}

impl TryFrom<u8> for SixBit {
    type Error = TooLarge;

    ghost try_from_gives = { IsSixBit };

    fn try_from(number: u8) -> Result<SixBit, TooLarge> {
        if number < 64 {
            Ok(SixBit { number })
        } else {
            Err(TooLarge(number))
        }
    }
}

impl From<SixBit> for u8 {
    ghost from_gives = { λ value number. number ≡ number_of value };

    fn from(value: SixBit) -> u8 {
        value.number
    }
}

impl Numbered for SixBit {
    ghost number = { number_of };

    fn number(&self) -> u8 {
        u8::from(*self)
    }
}
