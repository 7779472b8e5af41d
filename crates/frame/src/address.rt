// Whom a frame is expected for.
#[derive(Clone, Copy, PartialEq, Eq, Debug)]
pub struct Address {
    pub network: u64,
    pub destination: u16,
}
