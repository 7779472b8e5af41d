// The numbers that a line carries.
ghost use Rattle.std.specs.Prelude.{◌<◌};

// A number of six bits: 0 to 63.
#[derive(Clone, Copy, PartialEq, Eq, Debug)]
pub struct SixBit {
    pub(crate) number: u8,
    ghost small: { number < 64 },
}
