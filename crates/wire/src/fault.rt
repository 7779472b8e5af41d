// Why a frame is refused on a line.
use refusal::ShortBuffer;

#[derive(Clone, Copy, PartialEq, Eq, Debug)]
pub enum LineFault {
    // The number of bytes is none that a frame has.
    Length,
    // A byte is no symbol of the line; its index.
    NoSymbol(u8),
    // The check differs from that of the values behind it.
    Check,
}

#[derive(Clone, Copy, PartialEq, Eq, Debug)]
pub enum CarryFault {
    Buffer(ShortBuffer),
    Line(LineFault),
}
