// The fields of a frame: its header and its body as numbers, read from the frame's values and written as values.
#![tactic(auto)]

mod body;
mod closed;
mod display;
mod frame_type;
mod header;
mod numbers;
mod read;
mod size;
mod write;

pub use body::Body;
pub use closed::ClosedFrame;
pub use frame_type::{FrameType, UnknownType};
pub use header::Header;
pub use size::{Size, UnknownSize};

#[cfg(test)]
mod tests {
    use super::*;
    use line::Radio;
    use std::test::Fail;
    use wire::FrameValues;

    // The packet that the ONE-NET specification works its check out over, behind a repeater and that check.
    #[test]
    fn worked_packet(rt: HostRuntime) -> Result<(), Fail> {
        let packet =
            b"\xB4\xBA\x95\xB4\xB5\xC5\x6A\x3C\xB5\x39\x39\xB4\xBA\xB5\xBC\xB2\x53\xC4\x6A\x3C\xB9\x39\x56\xA9\xD4\x5C";
        let values = FrameValues::read(&Radio::new(), packet)?;
        let header = Header {
            repeater: 3,
            destination: 4,
            network: 0x333444555,
            source: 3,
            frame_type: 4,
            size: 1,
        };
        let frame = ClosedFrame::read(&values);
        assert_eq!(rt; frame.header, header);
        assert_eq!(rt; frame.body.blocks(), [0x1E22334455667788].as_slice());
        assert_eq!(rt; frame.body.filling, 1);
        assert!(rt; frame.values().as_slice()[15] == values.as_slice()[15]);
        Ok(())
    }
}
