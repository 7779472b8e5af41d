// Numbers written in values, high value first, six bits to a value.
ghost use Rattle.std.specs.Prelude.{◌≡◌, ◌^◌, ◌<◌, ◌≤◌, length};
ghost use Rattle.std.specs.Int.Digits.{number_from_digits};
ghost use Rattle.arithmetic.specs.Digits.{digits};
ghost use Rattle.line.specs.Values.{numbers};

use line::SixBit;

// The first number that eleven values cannot write.
pub(crate) const ELEVEN_VALUES: u128 = 1 << 66;

// The number that values write.
pub(crate) fn number_of(values: &[SixBit]) -> u128
    requires { length values.now ≤ 11 }
    ensures value { result ≡ number_from_digits 64 (numbers values.now) }
    ensures below { result < 64 ^ length values.now }
{
    let mut sum = 0u128;
    for value in values {
        sum = sum * 64 + u128::from(u8::from(*value));
    }
    sum
}

// Writes the last digits of a number, as many as there are places.
pub(crate) fn put_number(values: &mut [SixBit], number: u128)
    ensures { numbers values.new ≡ digits 64 (length values.old) number }
{
    let mut high = number;
    // By index: tried over `iter_mut().rev()`, after which a proof knows nothing of what was written.
    for i in (0..values.len()).rev() {
        values[i] = SixBit::lowest(high);
        high /= 64;
    }
}
