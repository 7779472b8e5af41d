// What is printed for a frame.
ghost use Rattle.std.specs.Prelude.{◌≡◌, Some};
ghost use Rattle.inspect.specs.Explanations.{explained, explanation};
ghost use Rattle.inspect.specs.Printing.{fields_in, explanation_text};

use crate::lines::{CheckLine, ContentLine, HeaderLine, RefusedLine};
use crate::opened::Opened;
use frame::{Address, FrameFault};
use std::fmt;

impl fmt::Display for Opened {
    ghost output = { λ opened. Some (explained (fields_in opened)) };

    fn fmt<W: fmt::Write>(&self, f: &mut fmt::Formatter<W>) -> fmt::Result {
        let header = HeaderLine(&self.header);
        let content = ContentLine(self);
        let check = CheckLine(self);
        write!(f, "{header}{content}{check}")
    }
}

// A frame's fields and its clear payload, or why it is refused.
#[derive(Clone, Copy)]
pub struct Explanation(Result<Opened, FrameFault>);

impl fmt::Display for Explanation {
    ghost output = { λ told. Some (explanation_text told) };

    fn fmt<W: fmt::Write>(&self, f: &mut fmt::Formatter<W>) -> fmt::Result {
        match self.0 {
            Ok(opened) => opened.fmt(f),
            Err(fault) => RefusedLine(fault).fmt(f),
        }
    }
}

// What is printed for a cable frame with the plain seal.
pub fn explain(expected: Address, frame: &[u8]) -> Explanation
    ensures { explanation_text result ≡ explanation expected.network expected.destination frame.now }
{
    Explanation(Opened::open(expected, frame))
}
