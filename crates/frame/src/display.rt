// Why a frame is not opened, or not built, in words.
ghost use Rattle.std.specs.Prelude.{◌≡◌, Some};
ghost use Rattle.frame.specs.Words.{words};

use crate::fault::FrameFault;
use std::error::Error;
use std::fmt;

impl FrameFault {
    // What is wrong, in words.
    pub fn words(self) -> &'static str
        ensures { result.now ≡ words self }
    {
        match self {
            FrameFault::Buffer(inner) => inner.words(),
            FrameFault::Line(inner) => inner.words(),
            FrameFault::Network => "the network ID is another",
            FrameFault::Destination => "the destination is another",
            FrameFault::TypeOrSize => {
                "the type is unknown, or the size is not that of the length"
            }
            FrameFault::Technique => "the technique is another, or a filling bit is set",
            FrameFault::OutOfRange => "a header field is out of range",
        }
    }
}

// One for each type: no impl of `Display` can be for whatever has a name or words.
impl fmt::Display for FrameFault {
    ghost output = { λ fault. Some (words fault) };

    fn fmt<W: fmt::Write>(&self, f: &mut fmt::Formatter<W>) -> fmt::Result {
        f.write_str(self.words())
    }
}

impl Error for FrameFault {}

#[cfg(test)]
mod tests {
    use super::*;
    use std::alloc::AllocError;
    use wire::LineFault;

    #[test]
    fn printed(rt: HostRuntime) -> Result<(), AllocError> {
        let heap = rt.alloc();
        let inner = FrameFault::Line(LineFault::Check);
        let text = format!(in heap; "{}, {inner}", FrameFault::Network)?;
        assert_eq!(rt;
            text.as_str(),
            "the network ID is another, the check differs"
        );
        Ok(())
    }
}
