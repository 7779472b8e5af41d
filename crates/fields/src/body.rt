ghost use Rattle.std.specs.Prelude.{◌≡◌, ◌-◌, ◌^◌, ◌<◌, drop, length, replicate};

use crate::size::Size;

// The body of a frame: one to three closed blocks, and the bits behind them, two for each block. An array with its size: the
// library's vector of a fixed capacity is not `Copy`, as this type is, and its clone can fail.
#[derive(Clone, Copy, PartialEq, Eq, Debug)]
pub struct Body {
    // The first of these, as many as the size; the others are 0.
    pub blocks: [u64; 3],
    pub size: Size,
    pub filling: u8,
    ghost fits: { filling < 4 ^ size.count },
    ghost blank: { drop size.count blocks ≡ replicate (3 - size.count) 0 },
}

impl Body {
    ghost use Rattle.fields.specs.Bodies.{blocks_of};

    // The blocks that the body has.
    pub fn blocks(&self) -> &[u64]
        ensures value { result.now ≡ blocks_of self.now }
        ensures len { length result.now ≡ self.now.size.count }
    {
        &self.blocks[..self.size.count]
    }
}
