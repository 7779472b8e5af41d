// The plain seal.
ghost use Rattle.seal.specs.Plain.{plain};
ghost use Rattle.seal.specs.Laws.{plain-lawful};

use crate::Seal;

// Changes nothing.
#[derive(Clone, Copy, PartialEq, Eq, Debug, Default)]
pub struct Plain;

impl Seal for Plain {
    ghost code = { λ _. plain };

    ghost lawful = { λ _. plain-lawful };

    fn technique(&self) -> u8 {
        0
    }

    fn close(&self, block: u64) -> u64 {
        block
    }

    fn open(&self, block: u64) -> u64 {
        block
    }
}
