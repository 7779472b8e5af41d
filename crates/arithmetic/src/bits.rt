// The bits of a number, one after the other.
ghost use Rattle.std.specs.Prelude.{◌≡◌};
ghost use Rattle.std.specs.Iterator.{YieldsFirst, item_count};
ghost use Rattle.arithmetic.specs.Digits.{digits};
ghost use Rattle.arithmetic.specs.Bits.{bits_left};

// The lowest bits of a number that are still to come, high bit first.
#[derive(Clone, Drop)]
pub struct Bits {
    number: u8,
    left: u32,
}

impl Bits {
    // The lowest `count` bits of a number.
    pub fn lowest(count: u32, number: u8) -> Bits
        ensures { bits_left result ≡ digits 2 count number }
    {
        Bits {
            number,
            left: count,
        }
    }
}

impl Iterator for Bits {
    type Item = u8;

    ghost next_gives = { YieldsFirst bits_left };

    ghost remaining = { item_count bits_left };

    fn next(&mut self) -> Option<u8> {
        self.left = self.left.checked_sub(1)?;
        Some(self.number.checked_shr(self.left).unwrap_or(0) & 1)
    }
}
