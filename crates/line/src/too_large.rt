// A number that has more than six bits. A conversion has an error type of its own, so that `From` can tell it from others.
ghost use Rattle.std.specs.Prelude.{◌++◌, Some, codes, decimal};

use std::error::Error;
use std::fmt;

#[derive(Clone, Copy, PartialEq, Eq, Debug)]
pub struct TooLarge(pub u8);

impl fmt::Display for TooLarge {
    ghost output = { λ e. Some (decimal e.0 ++ codes " does not fit six bits") };

    fn fmt<W: fmt::Write>(&self, f: &mut fmt::Formatter<W>) -> fmt::Result {
        let number = self.0;
        write!(f, "{number} does not fit six bits")
    }
}

impl Error for TooLarge {}

#[cfg(test)]
mod tests {
    use super::*;
    use std::alloc::AllocError;

    #[test]
    fn printed(rt: HostRuntime) -> Result<(), AllocError> {
        let text = TooLarge(64).to_string(rt.alloc())?;
        assert_eq!(rt; text.as_str(), "64 does not fit six bits");
        Ok(())
    }
}
