// What a frame says in front of its body.

// The numbers of a header, as they stand in a frame or are to stand in one. None is held to the bits that it has there, and
// the type and the size may be ones that are to be refused: so they are numbers here, and not a `FrameType` and a `Size`.
#[derive(Clone, Copy, PartialEq, Eq, Debug)]
pub struct Header {
    // Who sends this copy of the frame.
    pub repeater: u16,
    pub destination: u16,
    pub network: u64,
    // Who made the frame.
    pub source: u16,
    pub frame_type: u8,
    // How many blocks the body has.
    pub size: u8,
}
