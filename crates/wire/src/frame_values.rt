ghost use Rattle.std.specs.Prelude.{◌≡◌, true};
ghost use Rattle.wire.specs.Frames.{frame_length};

use line::SixBit;

// The values of a frame, in their order: 26, 37 or 48 of them. An array with its count: the
// library's vector of a fixed capacity is not `Copy`, as this type is, and its clone can fail.
#[derive(Clone, Copy)]
pub struct FrameValues {
    pub(crate) values: [SixBit; 48],
    pub(crate) count: usize,
    ghost whole: { frame_length count ≡ true },
}
