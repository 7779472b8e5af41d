// The radio line.
ghost use Rattle.std.specs.Prelude.{◌≡◌, ℕ, ◌/◌, ◌≤◌, map};
ghost use Rattle.std.specs.Option.{option_map};
ghost use Rattle.line.specs.Values.{number_of, numbers};
ghost use Rattle.arithmetic.specs.Digits.{digits, bits_of};
ghost use Rattle.arithmetic.specs.Division.{IsRemainder};
ghost use Rattle.line.specs.Code.{Reads};
ghost use Rattle.line.specs.Radio.{radio_symbol, moved_up, register_after, radio_message, radio, ReadsBelow};
ghost use Rattle.line.specs.Laws.{radio-lawful};

use crate::Line;
use crate::six_bit::SixBit;
use arithmetic::Bits;

// The byte that stands for each value, at the value's place.
const SYMBOLS: [u8; 64] = [
    0xB4, 0xBC, 0xB3, 0xBA, 0xB5, 0xB9, 0xB6, 0xB2, 0xC4, 0xCC, 0xC3, 0xCA, 0xC5, 0xC9, 0xC6, 0xC2,
    0x34, 0x3C, 0x33, 0x3A, 0x35, 0x39, 0x36, 0x32, 0xA4, 0xAC, 0xA3, 0xAA, 0xA5, 0xA9, 0xA6, 0xA2,
    0x54, 0x5C, 0x53, 0x5A, 0x55, 0x59, 0x56, 0x52, 0x94, 0x9C, 0x93, 0x9A, 0x95, 0x99, 0x96, 0x92,
    0x64, 0x6C, 0x63, 0x6A, 0x65, 0x69, 0x66, 0x62, 0xD4, 0xDC, 0xD3, 0xDA, 0xD5, 0xD9, 0xD6, 0xD2,
];

fn symbol_of(value: SixBit) -> u8
    ensures { result ≡ radio_symbol (number_of value) }
{
    SYMBOLS[value.number as usize]
}

// Moves the register up by a bit.
fn moved_up(register: u8, bit: u8) -> u8
    ensures { result ≡ moved_up register bit }
{
    let up = register << 1;
    if register >> 7 == bit { up } else { up ^ 0xA6 }
}

// Moves the eight bits of a byte through the register, high bit first.
fn moved_through(register: u8, byte: u8) -> u8
    ensures { result ≡ register_after register (digits 2 8 byte) }
{
    Bits::lowest(8, byte).fold(register, moved_up)
}

fn upper_six(register: u8) -> SixBit
    ensures { number_of result ≡ register / 4 }
{
    SixBit {
        number: register >> 2,
    }
}

// Symbols are those of a table, which a table of 256 places reads back; the check is the upper six bits of a register.
#[derive(Drop)]
pub struct Radio {
    values: [Option<SixBit>; 256],
    ghost inverse: { ReadsBelow 64 values },
}

// A table of 256 places, "no symbol" at each until it is filled from the symbols of the values below `count`.
fn filled_below(count: u8) -> [Option<SixBit>; 256]
    requires { count ≤ 64 }
    ensures { ReadsBelow count result }
{
    let mut values = [None; 256];
    // The number is what is stored, at its symbol's place: no list is indexed by it.
    for number in 0..count {
        let next = SixBit { number };
        values[symbol_of(next) as usize] = Some(next);
    }
    values
}

impl Radio {
    pub fn new() -> Radio {
        Radio {
            values: filled_below(64),
        }
    }

    fn looked_up(&self, byte: u8) -> Option<SixBit>
        ensures { Reads radio byte (option_map number_of result) }
    {
        self.values[byte as usize]
    }
}

impl Line for Radio {
    ghost code = { λ _. radio };

    ghost lawful = { λ _. radio-lawful };

    fn symbol(&self, value: SixBit) -> u8 {
        symbol_of(value)
    }

    fn value(&self, byte: u8) -> Option<SixBit> {
        self.looked_up(byte)
    }

    fn check(&self, values: &[SixBit]) -> SixBit
        ensures value { number_of result ≡ radio.check (numbers values.now) }
        ensures remainder { (register : ℕ) × IsRemainder 8 0x1A6 (radio_message (bits_of 8 (map radio_symbol (numbers values.now)))) register × (number_of result ≡ register / 4) }
    {
        let mut register = 0xFF;
        for value in values {
            register = moved_through(register, symbol_of(*value));
        }
        upper_six(register)
    }
}

#[cfg(test)]
mod tests {
    use super::*;
    use std::test::Fail;

    #[test]
    fn register_figure(rt: HostRuntime) {
        let mut moved = 0xFF;
        for byte in b"123456789" {
            moved = moved_through(moved, *byte);
        }
        assert_eq!(rt; moved, 0x6C);
    }

    #[test]
    fn check_figures(rt: HostRuntime) -> Result<(), Fail> {
        let radio = Radio::new();
        let symbols =
            b"\xB4\xB5\xC5\x6A\x3C\xB5\x39\x39\xB4\xBA\xB5\xBC\xB2\x53\xC4\x6A\x3C\xB9\x39\x56\xA9\xD4\x5C";
        let mut values = Vec::new(rt.alloc());
        for symbol in symbols {
            let Some(value) = radio.value(*symbol) else {
                return Err(Fail::new("no symbol"));
            };
            values.push(value)?;
        }
        assert_eq!(rt; u8::from(radio.check(&values)), 0x2C);
        assert_eq!(rt; u8::from(radio.check(&[])), 0x3F);
        Ok(())
    }

    #[test]
    fn symbol_figures(rt: HostRuntime) {
        let radio = Radio::new();
        assert_eq!(rt; radio.symbol(SixBit { number: 0 }), 0xB4);
        assert_eq!(rt; radio.symbol(SixBit { number: 3 }), 0xBA);
        assert!(rt; radio.value(0x00).is_none());
    }
}
