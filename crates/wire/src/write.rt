// A frame's values written as bytes. A line is handed along and goes into no struct, as in reading.
ghost use Rattle.std.specs.Prelude.{◌≡◌, ◌≤◌, map, length};
ghost use Rattle.line.specs.Values.{numbers};
ghost use Rattle.wire.specs.Frames.{symbols_of};
ghost use Rattle.wire.specs.Values.{values_in};
ghost use Rattle.wire.specs.Calls.{Written};

use crate::frame_values::FrameValues;
use line::{Line, SixBit};
use refusal::ShortBuffer;

// The bytes that a buffer for a frame has at the least: those of the longest.
pub const FRAME_ROOM: usize = 48;

fn write_symbols<L: Line>(line: &L, values: &[SixBit], out: &mut [u8])
    requires { length out.old ≡ length values.now }
    ensures { out.new ≡ map (L.Line.code line.now).symbol (numbers values.now) }
{
    for (place, value) in values.iter().enumerate() {
        // By index: tried with `iter_mut` and `zip`, after which a proof knows nothing of what was written.
        out[place] = line.symbol(*value);
    }
}

// Writes each value's symbol, and the line's own check at its place.
fn encode<L: Line>(line: &L, values: &[SixBit], out: &mut [u8])
    requires room { length out.old ≡ length values.now }
    requires checked { 3 ≤ length values.now }
    ensures { out.new ≡ symbols_of (L.Line.code line.now) (numbers values.now) }
{
    write_symbols(line, values, out);
    out[2] = line.symbol(line.check(&values[3..]));
}

impl FrameValues {
    // Writes the frame's bytes at the front of a buffer, with the line's own check, and tells how many they are.
    pub fn write<L: Line>(&self, line: &L, out: &mut [u8]) -> Result<usize, ShortBuffer>
        ensures { Written (L.Line.code line.now) (values_in self.now) out.old out.new result }
    {
        // Tested in `carry` too, which refuses a short buffer before it reads the frame.
        if out.len() < FRAME_ROOM {
            return Err(ShortBuffer);
        }
        encode(line, self.as_slice(), &mut out[0..self.count]);
        Ok(self.count)
    }
}
