ghost use Rattle.std.specs.Prelude.{◌≡◌};
ghost use Rattle.wire.specs.Refusing.{line_refused, carry_refused};
ghost use Rattle.wire.specs.declared.fault.CarryFault.TheVariants.{Buffer as in_buffer, Line as in_line};

use crate::fault::{CarryFault, LineFault};
use refusal::{Layer, Refusal, ShortBuffer};

impl From<LineFault> for Refusal {
    ghost from_gives = { λ fault refusal. refusal ≡ line_refused fault };

    fn from(fault: LineFault) -> Refusal {
        let (number, place) = match fault {
            LineFault::Length => (2, 0),
            LineFault::NoSymbol(place) => (3, place),
            LineFault::Check => (4, 0),
        };
        Refusal {
            number,
            layer: Layer::Line,
            place,
        }
    }
}

impl From<CarryFault> for Refusal {
    ghost from_gives = { λ fault refusal. refusal ≡ carry_refused fault };

    fn from(fault: CarryFault) -> Refusal {
        match fault {
            CarryFault::Buffer(inner) => Refusal::from(inner),
            CarryFault::Line(inner) => Refusal::from(inner),
        }
    }
}

// By hand, this and the next: what a derive writes has no contract, and those of the callers name the fault that `?` makes.
impl From<ShortBuffer> for CarryFault {
    ghost from_gives = { λ e r. r ≡ in_buffer e };

    fn from(short: ShortBuffer) -> CarryFault {
        CarryFault::Buffer(short)
    }
}

impl From<LineFault> for CarryFault {
    ghost from_gives = { λ e r. r ≡ in_line e };

    fn from(refused: LineFault) -> CarryFault {
        CarryFault::Line(refused)
    }
}
