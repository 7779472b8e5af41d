// A frame's bytes read as values. A line is handed along and goes into no struct: what is read with it is another thing in each
// function.
ghost use Rattle.std.specs.Prelude.{◌≡◌, ◌≤◌, true, length, take, replicate, ⊤, Some, None, if◌then◌else◌};
ghost use Rattle.std.specs.Option.{option_map};
ghost use Rattle.refusal.specs.Outcomes.{unless, Outcome};
ghost use Rattle.line.specs.Values.{numbers};
ghost use Rattle.wire.specs.Frames.{frame_length, first_no_symbol, values_of, check_holds};
ghost use Rattle.wire.specs.Refusing.{line_refusal};
ghost use Rattle.wire.specs.Values.{values_in};
ghost use Rattle.wire.specs.Calls.{IsFrame, Read};

use crate::fault::LineFault;
use crate::frame_values::FrameValues;
use line::{Line, SixBit};

fn check_length(count: usize) -> Result<(), LineFault>
    ensures { Outcome (unless (frame_length count) LineFault.Length) (λ _. ⊤) result }
{
    match count {
        26 | 37 | 48 => Ok(()),
        _ => Err(LineFault::Length),
    }
}

// Reads each symbol, up to the first byte that is none.
fn decode<L: Line>(line: &L, frame: &[u8], values: &mut [SixBit]) -> Result<(), LineFault>
    requires room { length values.old ≡ length frame.now }
    requires short { length frame.now ≤ 48 }
    ensures { Outcome (option_map LineFault.NoSymbol (first_no_symbol (L.Line.code line.now) 0 frame.now)) (λ _. numbers values.new ≡ values_of (L.Line.code line.now) frame.now) result }
{
    for (place, byte) in frame.iter().enumerate() {
        match line.value(*byte) {
            // By index: tried with `iter_mut` and `zip`, after which a proof knows nothing of what was written.
            Some(value) => values[place] = value,
            None => return Err(LineFault::NoSymbol(place as u8)),
        }
    }
    Ok(())
}

fn check_holds<L: Line>(line: &L, values: &[SixBit]) -> bool
    requires { 3 ≤ length values.now }
    ensures { result ≡ check_holds (L.Line.code line.now) (numbers values.now) }
{
    values[2] == line.check(&values[3..])
}

// Reads each symbol, and holds the check to the values behind it.
fn read_into<L: Line>(line: &L, frame: &[u8], values: &mut [SixBit]) -> Result<(), LineFault>
    requires room { length values.old ≡ length frame.now }
    requires whole { frame_length (length frame.now) ≡ true }
    ensures { Outcome (line_refusal (L.Line.code line.now) frame.now) (λ _. numbers values.new ≡ values_of (L.Line.code line.now) frame.now) result }
{
    decode(line, frame, values)?;
    if !check_holds(line, values) {
        return Err(LineFault::Check);
    }
    Ok(())
}

impl FrameValues {
    // Room for the values of any frame, all of them 0.
    pub fn room() -> [SixBit; 48]
        ensures { numbers result ≡ replicate 48 0 }
    {
        [SixBit::ZERO; 48]
    }

    // Reads the values of a frame's bytes, or tells the first fault that applies.
    pub fn read<L: Line>(line: &L, frame: &[u8]) -> Result<FrameValues, LineFault>
        ensures { Read (L.Line.code line.now) frame.now result }
    {
        let count = frame.len();
        check_length(count)?;
        let mut values = FrameValues::room();
        read_into(line, frame, &mut values[0..count])?;
        Ok(FrameValues { values, count })
    }

    // The frame whose values are the first of these, or none where no frame has so many. Beside `TryFrom`, since any number may
    // be asked for here, also one that the array has no room for.
    pub fn new(values: [SixBit; 48], count: usize) -> Option<FrameValues>
        ensures { option_map values_in result ≡ (if frame_length count then Some (numbers (take count values)) else None) }
    {
        match check_length(count) {
            Ok(()) => Some(FrameValues { values, count }),
            Err(_) => None,
        }
    }

    pub fn as_slice(&self) -> &[SixBit]
        ensures values { numbers result.now ≡ values_in self.now }
        ensures whole { frame_length (length result.now) ≡ true }
    {
        &self.values[0..self.count]
    }
}

impl TryFrom<&[SixBit]> for FrameValues {
    type Error = LineFault;

    ghost try_from_gives = { λ values result. IsFrame values.now result };

    // The frame that has these values, where a frame has so many.
    fn try_from(values: &[SixBit]) -> Result<FrameValues, LineFault> {
        check_length(values.len())?;
        let mut room = FrameValues::room();
        room[0..values.len()].copy_from_slice(values);
        Ok(FrameValues {
            values: room,
            count: values.len(),
        })
    }
}
