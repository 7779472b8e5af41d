// The name of a frame's type, and what is said of numbers that stand for no type and no size.
ghost use Rattle.std.specs.Prelude.{◌≡◌, ◌++◌, Some, codes, decimal};
ghost use Rattle.fields.specs.Words.{frame_type_name};

use crate::frame_type::{FrameType, UnknownType};
use crate::size::UnknownSize;
use std::error::Error;
use std::fmt;

impl FrameType {
    pub fn name(self) -> &'static str
        ensures { result.now ≡ frame_type_name self }
    {
        match self {
            FrameType::Data => "data",
            FrameType::Ack => "ACK",
            FrameType::Nack => "NACK",
        }
    }
}

// One for each type: no impl of `Display` can be for whatever has a name or words.
impl fmt::Display for FrameType {
    ghost output = { λ kind. Some (frame_type_name kind) };

    fn fmt<W: fmt::Write>(&self, f: &mut fmt::Formatter<W>) -> fmt::Result {
        f.write_str(self.name())
    }
}

impl fmt::Display for UnknownType {
    ghost output = { λ unknown. Some (codes "no type of frame has the number " ++ decimal unknown.0) };

    fn fmt<W: fmt::Write>(&self, f: &mut fmt::Formatter<W>) -> fmt::Result {
        let number = self.0;
        write!(f, "no type of frame has the number {number}")
    }
}

impl Error for UnknownType {}

impl fmt::Display for UnknownSize {
    ghost output = { λ unknown. Some (codes "no frame has the size " ++ decimal unknown.0) };

    fn fmt<W: fmt::Write>(&self, f: &mut fmt::Formatter<W>) -> fmt::Result {
        let number = self.0;
        write!(f, "no frame has the size {number}")
    }
}

impl Error for UnknownSize {}

#[cfg(test)]
mod tests {
    use super::*;
    use std::alloc::AllocError;

    #[test]
    fn printed(rt: HostRuntime) -> Result<(), AllocError> {
        let heap = rt.alloc();
        let text = format!(in heap;
            "{}, {}, {}",
            FrameType::Ack,
            UnknownType(4),
            UnknownSize(0)
        )?;
        let expected = "ACK, no type of frame has the number 4, no frame has the size 0";
        assert_eq!(rt; text.as_str(), expected);
        Ok(())
    }
}
