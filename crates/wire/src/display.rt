// Why a frame is refused on a line, in words.
ghost use Rattle.std.specs.Prelude.{◌≡◌, Some};
ghost use Rattle.wire.specs.Words.{line_words, carry_words};

use crate::fault::{CarryFault, LineFault};
use std::error::Error;
use std::fmt;

impl LineFault {
    // What is wrong, in words.
    pub fn words(self) -> &'static str
        ensures { result.now ≡ line_words self }
    {
        match self {
            LineFault::Length => "the frame does not have 26, 37 or 48 bytes",
            LineFault::NoSymbol(_) => "a byte is no symbol",
            LineFault::Check => "the check differs",
        }
    }
}

// One for each type: no impl of `Display` can be for whatever has a name or words.
impl fmt::Display for LineFault {
    ghost output = { λ fault. Some (line_words fault) };

    fn fmt<W: fmt::Write>(&self, f: &mut fmt::Formatter<W>) -> fmt::Result {
        f.write_str(self.words())
    }
}

impl Error for LineFault {}

impl CarryFault {
    // What is wrong, in words.
    pub fn words(self) -> &'static str
        ensures { result.now ≡ carry_words self }
    {
        match self {
            CarryFault::Buffer(inner) => inner.words(),
            CarryFault::Line(inner) => inner.words(),
        }
    }
}

impl fmt::Display for CarryFault {
    ghost output = { λ fault. Some (carry_words fault) };

    fn fmt<W: fmt::Write>(&self, f: &mut fmt::Formatter<W>) -> fmt::Result {
        match self {
            CarryFault::Buffer(inner) => inner.fmt(f),
            CarryFault::Line(inner) => inner.fmt(f),
        }
    }
}

impl Error for CarryFault {}

#[cfg(test)]
mod tests {
    use super::*;
    use refusal::{Layer, Refusal, ShortBuffer};
    use std::alloc::AllocError;

    #[test]
    fn printed(rt: HostRuntime) -> Result<(), AllocError> {
        let heap = rt.alloc();
        let refusal = Refusal {
            number: 3,
            layer: Layer::Line,
            place: 25,
        };
        let no_symbol = CarryFault::Line(LineFault::NoSymbol(25));
        let text = format!(in heap; "{refusal}, {}: {no_symbol}", refusal.layer)?;
        assert_eq!(rt; text.as_str(), "!03 025, Line: a byte is no symbol");
        let short = CarryFault::Buffer(ShortBuffer).to_string(heap)?;
        assert_eq!(rt; short.as_str(), "a buffer is too short");
        Ok(())
    }
}
