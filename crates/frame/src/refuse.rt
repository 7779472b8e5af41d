ghost use Rattle.std.specs.Prelude.{◌≡◌};
ghost use Rattle.frame.specs.Refusing.{frame_refused};
ghost use Rattle.frame.specs.declared.fault.FrameFault.TheVariants.{Buffer as in_buffer, Line as in_line};

use crate::fault::FrameFault;
use refusal::{Layer, Refusal, ShortBuffer};
use wire::LineFault;

impl From<FrameFault> for Refusal {
    ghost from_gives = { λ fault refusal. refusal ≡ frame_refused fault };

    fn from(fault: FrameFault) -> Refusal {
        let (number, layer) = match fault {
            FrameFault::Buffer(inner) => return Refusal::from(inner),
            FrameFault::Line(inner) => return Refusal::from(inner),
            FrameFault::Network => (5, Layer::Frame),
            FrameFault::Destination => (6, Layer::Frame),
            FrameFault::TypeOrSize => (7, Layer::Frame),
            FrameFault::Technique => (8, Layer::Frame),
            FrameFault::OutOfRange => (11, Layer::Body),
        };
        Refusal {
            number,
            layer,
            place: 0,
        }
    }
}

// By hand, this and the next: what a derive writes has no contract, and those of the callers name the fault that `?` makes.
impl From<ShortBuffer> for FrameFault {
    ghost from_gives = { λ e r. r ≡ in_buffer e };

    fn from(short: ShortBuffer) -> FrameFault {
        FrameFault::Buffer(short)
    }
}

impl From<LineFault> for FrameFault {
    ghost from_gives = { λ e r. r ≡ in_line e };

    fn from(refused: LineFault) -> FrameFault {
        FrameFault::Line(refused)
    }
}
