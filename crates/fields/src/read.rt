// A frame's fields read from its values.
ghost use Rattle.std.specs.Prelude.{◌≡◌, ◌+◌, ◌*◌, ◌^◌, ◌<◌, ◌≤◌, length};
ghost use Rattle.std.specs.Int.Digits.{number_from_digits};
ghost use Rattle.std.specs.List.{flat_map};
ghost use Rattle.line.specs.Values.{numbers};
ghost use Rattle.wire.specs.Values.{values_in};
ghost use Rattle.fields.specs.Layout.{header_of, body_in, blocks_in};
ghost use Rattle.fields.specs.Bodies.{closed_blocks, filling_of, blocks_of};

use crate::body::Body;
use crate::header::Header;
use crate::numbers::{ELEVEN_VALUES, number_of};
use crate::size::Size;
use line::SixBit;
use wire::FrameValues;

impl Header {
    // The header of a frame.
    pub fn read(frame: &FrameValues) -> Header
        ensures { result ≡ header_of (values_in frame.now) }
    {
        let values = frame.as_slice();
        Header {
            repeater: number_of(&values[0..2]) as u16,
            destination: number_of(&values[3..5]) as u16,
            network: number_of(&values[5..11]) as u64,
            source: number_of(&values[11..13]) as u16,
            frame_type: number_of(&values[13..14]) as u8,
            size: number_of(&values[14..15]) as u8,
        }
    }
}

// A closed block, and the bits that are left over behind it.
#[derive(Clone, Copy)]
struct Cut {
    block: u64,
    rest: u8,
}

// Cuts the next block off: the bits left over in front of it and the eleven values that follow are 64 bits of block and
// two bits more that are left over.
fn cut_block(rest: u8, spare: u128, group: [SixBit; 11]) -> Cut
    requires room { rest * 4 + 4 ≤ spare }
    requires few { spare ≤ 64 }
    ensures whole { result.block * spare + result.rest ≡ rest * 64 ^ 11 + number_from_digits 64 (numbers group) }
    ensures below { result.rest < spare }
    ensures block { result.block < 2 ^ 64 }
{
    let bits = u128::from(rest) * ELEVEN_VALUES + number_of(&group);
    Cut {
        block: (bits / spare) as u64,
        rest: (bits % spare) as u8,
    }
}

// Cuts a body into its blocks.
fn cut_body(size: Size, groups: &[[SixBit; 11]]) -> Body
    requires { length groups.now ≡ size.count }
    ensures size { result.size ≡ size }
    ensures closed { blocks_of result ≡ closed_blocks size.count (number_from_digits 64 (flat_map numbers groups.now)) }
    ensures filling { result.filling ≡ filling_of size.count (number_from_digits 64 (flat_map numbers groups.now)) }
{
    let mut closed = [0u64; 3];
    let mut rest = 0u8;
    let mut spare = 1u128;
    for (k, group) in groups.iter().copied().enumerate() {
        spare *= 4;
        let cut = cut_block(rest, spare, group);
        // By index: tried with `iter_mut` and `zip`, after which a proof knows nothing of what was written.
        closed[k] = cut.block;
        rest = cut.rest;
    }
    Body {
        blocks: closed,
        size,
        filling: rest,
    }
}

// The values of a frame's body, eleven for each block.
fn body_groups(frame: &FrameValues) -> &[[SixBit; 11]]
    ensures values { flat_map numbers result.now ≡ body_in (values_in frame.now) }
    ensures count { length result.now ≡ blocks_in (values_in frame.now) }
    ensures some { 1 ≤ length result.now }
    ensures few { length result.now ≤ 3 }
{
    let (groups, _) = frame.as_slice()[15..].as_chunks::<11>();
    groups
}

impl Body {
    // The body of a frame.
    pub fn read(frame: &FrameValues) -> Body
        ensures size { result.size.count ≡ blocks_in (values_in frame.now) }
        ensures closed { blocks_of result ≡ closed_blocks result.size.count (number_from_digits 64 (body_in (values_in frame.now))) }
        ensures filling { result.filling ≡ filling_of result.size.count (number_from_digits 64 (body_in (values_in frame.now))) }
    {
        let groups = body_groups(frame);
        let size = Size {
            count: groups.len(),
        };
        cut_body(size, groups)
    }
}
