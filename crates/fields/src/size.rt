// How many blocks a body has.
ghost use Rattle.std.specs.Prelude.{◌≤◌};

// One, two or three blocks.
#[derive(Clone, Copy, PartialEq, Eq, Debug)]
pub struct Size {
    pub count: usize,
    ghost some: { 1 ≤ count },
    ghost few: { count ≤ 3 },
}

// A number of blocks that no body has: an error of this conversion alone.
#[derive(Clone, Copy, PartialEq, Eq, Debug)]
pub struct UnknownSize(pub u8);

impl TryFrom<u8> for Size {
    ghost use Rattle.fields.specs.Sizes.{ReadsSize};

    type Error = UnknownSize;

    ghost try_from_gives = { ReadsSize };

    fn try_from(number: u8) -> Result<Self, UnknownSize> {
        match number {
            1..=3 => Ok(Size {
                count: usize::from(number),
            }),
            _ => Err(UnknownSize(number)),
        }
    }
}
