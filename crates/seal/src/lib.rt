// Seals: what closes a block of 64 bits, and opens it again.
#![tactic(auto)]

ghost use Rattle.std.specs.Prelude.{◌≡◌};
ghost use Rattle.seal.specs.Code.{SealCode, Lawful};

mod plain;
mod words;
mod xtea;

pub use plain::Plain;
pub use xtea::Xtea;

// A way to close blocks of 64 bits. It answers the same whenever the same is asked.
pub trait Seal {
    ghost code: { Self → SealCode };

    // The number by which a frame tells how its body is closed.
    // It is no enum of the two that are taken: a seal that is yet to be written may have any of the four.
    fn technique(&self) -> u8
        ensures { result ≡ (code self.now).technique };

    fn close(&self, block: u64) -> u64
        ensures { result ≡ (code self.now).closed block };

    fn open(&self, block: u64) -> u64
        ensures { result ≡ (code self.now).opened block };

    ghost lawful: { (seal : Self) → Lawful (code seal) };
}
