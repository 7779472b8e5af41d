// Division of polynomials over two elements, as the checks are worked out by it.
ghost use Rattle.std.specs.Prelude.{◌≡◌, ◌+◌, ◌*◌, ◌^◌, ◌<◌, map};
ghost use Rattle.arithmetic.specs.Digits.{digits};
ghost use Rattle.arithmetic.specs.Division.{reduced, remainder_after, check_message};

use crate::bits::Bits;
use crate::division::Division;
use crate::numbered::Numbered;

impl Division {
    // Takes the divisor off `x` where `x` has its degree.
    fn reduced(self, x: u16) -> u16
        requires { x < 2 * 2 ^ self.degree }
        ensures value { result ≡ reduced self.degree self.divisor x }
        ensures below { result < 2 ^ self.degree }
    {
        if x < 1 << self.degree {
            x
        } else {
            x ^ self.divisor
        }
    }

    fn bring_bit(self, bit: u8) -> Division
        requires { bit < 2 }
        ensures degree { result.degree ≡ self.degree }
        ensures divisor { result.divisor ≡ self.divisor }
        ensures rest { result.rest ≡ reduced self.degree self.divisor (2 * self.rest + bit) }
    {
        Division {
            degree: self.degree,
            divisor: self.divisor,
            rest: self.reduced(2 * self.rest + u16::from(bit)),
        }
    }

    // Goes on with the last bits of a value, as many as the divisor's degree, high bit first.
    pub fn bring_down(self, value: u8) -> Division
        ensures degree { result.degree ≡ self.degree }
        ensures divisor { result.divisor ≡ self.divisor }
        ensures rest { result.rest ≡ remainder_after self.degree self.divisor self.rest (digits 2 self.degree value) }
    {
        let mut division = self;
        for bit in Bits::lowest(self.degree, value) {
            division = division.bring_bit(bit);
        }
        division
    }

    // What is left of the bits that were brought down.
    pub fn remainder(self) -> u8
        ensures { result ≡ self.rest }
    {
        self.rest as u8
    }

    // Goes on with all numbers of a list and with as many zero bits as the degree, and tells what is left.
    pub fn check<N: Numbered>(self, numbers: &[N]) -> u8
        ensures value { result ≡ remainder_after self.degree self.divisor self.rest (check_message self.degree (map N.number numbers.now)) }
        ensures below { result < 2 ^ self.degree }
    {
        let mut divided = self;
        for number in numbers {
            divided = divided.bring_down(number.number());
        }
        divided.bring_down(0).remainder()
    }
}
