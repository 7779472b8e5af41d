// A frame on a line: its bytes read as values, its values written as bytes, and a frame carried from one line to another.
#![tactic(auto)]

ghost use Rattle.wire.specs.Calls.{Carried, CarriesBack};

use line::Line;
use refusal::ShortBuffer;

mod display;
mod fault;
mod frame_values;
mod read;
mod refuse;
mod write;

pub use fault::{CarryFault, LineFault};
pub use frame_values::FrameValues;
pub use write::FRAME_ROOM;

// Writes the bytes that carry a frame of one line on another at the front of `out`, and tells how many they are.
// Carried back they are the frame's own bytes again.
pub fn carry<A: Line, B: Line>(
    from: &A,
    to: &B,
    frame: &[u8],
    out: &mut [u8],
) -> Result<usize, CarryFault>
    ensures carried { Carried (A.Line.code from.now) (B.Line.code to.now) frame.now out.old out.new result }
    ensures back { CarriesBack (A.Line.code from.now) (B.Line.code to.now) frame.now out.new result }
{
    if out.len() < FRAME_ROOM {
        return Err(CarryFault::Buffer(ShortBuffer));
    }
    let values = FrameValues::read(from, frame)?;
    Ok(values.write(to, out)?)
}

#[cfg(test)]
mod tests {
    use super::*;
    use line::{Cable, Radio};
    use refusal::{Layer, Refusal};
    use std::test::Fail;

    // A buffer of 47 bytes is refused first, whatever else is wrong, and stays as it was.
    #[test]
    fn short_buffer(rt: HostRuntime) -> Result<(), Fail> {
        let mut out = [0xEE; 47];
        let Err(fault) = carry(&Cable, &Radio::new(), b"no frame", &mut out) else {
            return Err(Fail::new("carried"));
        };
        let expected = Refusal {
            number: 1,
            layer: Layer::Call,
            place: 0,
        };
        assert_eq!(rt; Refusal::from(fault), expected);
        assert!(rt; out == [0xEE; 47]);
        Ok(())
    }

    // The bytes behind a frame stay, and the frame comes back.
    #[test]
    fn there_and_back(rt: HostRuntime) {
        let frame = b"01>020000010111Y00E0@80<00";
        let radio = Radio::new();
        let mut there = [0xEE; 50];
        let mut back = [0xEE; 48];
        assert_eq!(rt; carry(&Cable, &radio, frame, &mut there), Ok(26));
        assert!(rt; there[26..50] == [0xEE; 24][0..24]);
        assert_eq!(rt; carry(&radio, &Cable, &there[0..26], &mut back), Ok(26));
        assert!(rt; back[0..26] == frame[0..26]);
    }
}
