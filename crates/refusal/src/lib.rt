// What a host sees of a refused call: a number, the layer that refused, and a place.
#![tactic(auto)]

ghost use Rattle.std.specs.Prelude.{◌≡◌};
ghost use Rattle.refusal.specs.Refusals.{text_of, short_buffer};

mod display;

// The layer that a refusal comes from; it goes with the number alone.
#[derive(Clone, Copy, PartialEq, Eq, Debug)]
pub enum Layer {
    Call,
    Line,
    Frame,
    Body,
}

// Plain numbers: the fields are public, and a layer that is yet to be written refuses with numbers of its own. The faults of
// the calls are types of their own.
#[derive(Clone, Copy, PartialEq, Eq, Debug)]
pub struct Refusal {
    pub number: u8,
    pub layer: Layer,
    pub place: u8,
}

impl Refusal {
    // `!`, the number in two digits, a blank, and the place in three: what `Display` writes, without a formatter, so that it
    // cannot fail.
    pub fn text(&self) -> [u8; 7]
        ensures { result ≡ text_of self.now }
    {
        [
            b'!',
            b'0' + self.number / 10 % 10,
            b'0' + self.number % 10,
            b' ',
            b'0' + self.place / 100 % 10,
            b'0' + self.place / 10 % 10,
            b'0' + self.place % 10,
        ]
    }
}

// A buffer of the caller's is too short for what goes into it.
#[derive(Clone, Copy, PartialEq, Eq, Debug)]
pub struct ShortBuffer;

impl From<ShortBuffer> for Refusal {
    ghost from_gives = { λ _ refusal. refusal ≡ short_buffer };

    fn from(_: ShortBuffer) -> Refusal {
        Refusal {
            number: 1,
            layer: Layer::Call,
            place: 0,
        }
    }
}

#[cfg(test)]
mod tests {
    use super::*;

    #[test]
    fn text_figure(rt: HostRuntime) {
        let refusal = Refusal {
            number: 3,
            layer: Layer::Line,
            place: 25,
        };
        assert!(rt; refusal.text() == *b"!03 025");
    }
}
