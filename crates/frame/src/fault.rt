// Why a frame is not opened, or not built.
use refusal::ShortBuffer;
use wire::LineFault;

#[derive(Clone, Copy, PartialEq, Eq, Debug)]
pub enum FrameFault {
    Buffer(ShortBuffer),
    Line(LineFault),
    // The network ID is another.
    Network,
    // The destination is another.
    Destination,
    // The type is unknown, or the size is not that of the frame or of the payload.
    TypeOrSize,
    // The technique is another, or a filling bit is set.
    Technique,
    // A number of the header does not fit its field.
    OutOfRange,
}
