// Lines: the byte that stands for each six-bit value, and the check over a list of values.
#![tactic(auto)]

ghost use Rattle.std.specs.Prelude.{◌≡◌};
ghost use Rattle.std.specs.Option.{option_map};
ghost use Rattle.line.specs.Values.{number_of, numbers};
ghost use Rattle.line.specs.Code.{LineCode, Lawful, Reads};

mod cable;
mod number;
mod radio;
mod six_bit;
mod too_large;

pub use cable::Cable;
pub use radio::Radio;
pub use six_bit::SixBit;
pub use too_large::TooLarge;

// A way to carry six-bit values as bytes. It answers the same whenever the same is asked.
pub trait Line {
    ghost code: { Self → LineCode };

    // The byte that stands for a value.
    fn symbol(&self, value: SixBit) -> u8
        ensures { result ≡ (code self.now).symbol (number_of value) };

    // The value whose symbol a byte is, or none where it is no symbol.
    fn value(&self, byte: u8) -> Option<SixBit>
        ensures { Reads (code self.now) byte (option_map number_of result) };

    // The check over a list of values.
    fn check(&self, values: &[SixBit]) -> SixBit
        ensures { number_of result ≡ (code self.now).check (numbers values.now) };

    ghost lawful: { (line : Self) → Lawful (code line) };
}
