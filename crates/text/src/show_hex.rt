// Numbers and bytes that print in hexadecimal.
ghost use Rattle.std.specs.Prelude.{◌≡◌, Some, ◌∷◌};
ghost use Rattle.std.specs.List.{flat_map};
ghost use Rattle.text.specs.Hexadecimal.{hex};
ghost use Rattle.text.specs.HexBytes.{hex_bytes};

use crate::write_hex::digit_at;
use std::fmt;

// A number that prints as its last digits.
#[derive(Clone, Copy)]
pub struct Hex<const DIGITS: usize>(pub u64);

impl<const DIGITS: usize> fmt::Display for Hex<DIGITS> {
    ghost output = { λ number. Some (hex DIGITS number.0) };

    #[tactic(auto, using(crate::proofs::Writing::writing))]
    fn fmt<W: fmt::Write>(&self, f: &mut fmt::Formatter<W>) -> fmt::Result {
        // The place is what the digit is taken by: no list is indexed.
        for place in (0..DIGITS).rev() {
            f.write_str(digit_at(self.0, place))?;
        }
        Ok(())
    }
}

// Bytes that print in two digits each, with the same in front of each.
#[derive(Clone, Copy)]
pub struct HexBytes<'a> {
    front: Option<char>,
    bytes: &'a [u8],
}

impl<'a> HexBytes<'a> {
    pub fn new(bytes: &'a [u8]) -> HexBytes<'a>
        ensures { hex_bytes result ≡ flat_map (hex 2) bytes.entry.now }
    {
        HexBytes { front: None, bytes }
    }

    // A blank stands in front of each byte.
    pub fn spaced(bytes: &'a [u8]) -> HexBytes<'a>
        ensures { hex_bytes result ≡ flat_map (λ b. 0x20 ∷ hex 2 b) bytes.entry.now }
    {
        HexBytes {
            front: Some(' '),
            bytes,
        }
    }
}

impl fmt::Display for HexBytes<'_> {
    ghost output = { λ shown. Some (hex_bytes shown) };

    fn fmt<W: fmt::Write>(&self, f: &mut fmt::Formatter<W>) -> fmt::Result {
        for byte in self.bytes {
            if let Some(front) = self.front {
                f.write_char(front)?;
            }
            Hex::<2>(u64::from(*byte)).fmt(f)?;
        }
        Ok(())
    }
}
