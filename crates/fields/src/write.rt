// A frame's fields written as values.
ghost use Rattle.std.specs.Prelude.{◌≡◌, ◌+◌, ◌*◌, ◌^◌, ◌<◌, ◌≤◌, length};
ghost use Rattle.std.specs.Int.Digits.{number_from_digits};
ghost use Rattle.arithmetic.specs.Digits.{digits};
ghost use Rattle.line.specs.Values.{numbers};
ghost use Rattle.fields.specs.Layout.{header_values, frame_of};
ghost use Rattle.fields.specs.Bodies.{number_in};

use crate::body::Body;
use crate::closed::ClosedFrame;
use crate::header::Header;
use crate::numbers::{ELEVEN_VALUES, put_number};
use line::SixBit;

// Writes the values of a header, 0 at the check's place.
fn put_header(header: &Header, values: &mut [SixBit])
    requires { length values.old ≡ 15 }
    ensures { numbers values.new ≡ header_values header.now }
{
    put_number(&mut values[0..2], u128::from(header.repeater));
    put_number(&mut values[2..3], 0);
    put_number(&mut values[3..5], u128::from(header.destination));
    put_number(&mut values[5..11], u128::from(header.network));
    put_number(&mut values[11..13], u128::from(header.source));
    put_number(&mut values[13..14], u128::from(header.frame_type));
    put_number(&mut values[14..15], u128::from(header.size));
}

// Writes a block and the bits behind it as eleven values, and tells the bits that are left over in front of them.
fn put_block(block: u64, spare: u128, rest: u8, values: &mut [SixBit]) -> u8
    requires long { length values.old ≡ 11 }
    requires fits { rest < spare }
    requires few { spare ≤ 64 }
    ensures whole { result * 64 ^ 11 + number_from_digits 64 (numbers values.new) ≡ block * spare + rest }
    ensures below { result * 4 < spare }
{
    let bits = u128::from(block) * spare + u128::from(rest);
    put_number(values, bits);
    (bits / ELEVEN_VALUES) as u8
}

// Writes the values of a body, eleven for each of its blocks, the last block first.
fn put_body(body: &Body, values: &mut [SixBit])
    requires { length values.old ≡ 11 * body.now.size.count }
    ensures { numbers values.new ≡ digits 64 (11 * body.now.size.count) (number_in body.now) }
{
    let mut rest = body.filling;
    for (k, block) in body.blocks().iter().enumerate().rev() {
        // By index: tried with `chunks_exact_mut` and `zip`, after which a proof knows nothing of what was written.
        let group = &mut values[11 * k..11 * k + 11];
        rest = put_block(*block, 4u128.pow(k as u32 + 1), rest, group);
    }
}

pub(crate) fn put_frame(frame: &ClosedFrame, values: &mut [SixBit])
    requires { length values.old ≡ 15 + 11 * frame.now.body.size.count }
    ensures { numbers values.new ≡ frame_of frame.now.header frame.now.body.size.count (number_in frame.now.body) }
{
    put_header(&frame.header, &mut values[..15]);
    put_body(&frame.body, &mut values[15..]);
}
