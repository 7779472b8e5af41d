// The cable line.
ghost use Rattle.std.specs.Prelude.{◌≡◌};
ghost use Rattle.std.specs.Int.Digits.{number_from_digits};
ghost use Rattle.line.specs.Values.{number_of, numbers};
ghost use Rattle.arithmetic.specs.Division.{check_message, IsRemainder};
ghost use Rattle.line.specs.Cable.{cable};
ghost use Rattle.line.specs.Laws.{cable-lawful};

use crate::Line;
use crate::six_bit::SixBit;
use arithmetic::Division;

// Symbols are the 64 bytes from 0x30 on, and the check is a remainder.
#[derive(Clone, Copy, PartialEq, Eq, Debug, Default)]
pub struct Cable;

impl Line for Cable {
    ghost code = { λ _. cable };

    ghost lawful = { λ _. cable-lawful };

    fn symbol(&self, value: SixBit) -> u8 {
        value.number + 0x30
    }

    fn value(&self, byte: u8) -> Option<SixBit> {
        match byte {
            0x30..=0x6F => Some(SixBit {
                number: byte - 0x30,
            }),
            _ => None,
        }
    }

    fn check(&self, values: &[SixBit]) -> SixBit
        ensures value { number_of result ≡ cable.check (numbers values.now) }
        ensures remainder { IsRemainder 6 0x43 (number_from_digits 2 (check_message 6 (numbers values.now))) (number_of result) }
    {
        let division = Division {
            degree: 6,
            divisor: 0x43,
            rest: 0,
        };
        SixBit {
            number: division.check(values),
        }
    }
}

#[cfg(test)]
mod tests {
    use super::*;

    #[test]
    fn empty_check(rt: HostRuntime) {
        assert_eq!(rt; u8::from(Cable.check(&[])), 0);
    }
}
