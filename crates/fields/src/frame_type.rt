// The types of frames.
ghost use Rattle.std.specs.Prelude.{◌≡◌};
ghost use Rattle.fields.specs.Types.{ReadsType, type_number};

#[derive(Clone, Copy, PartialEq, Eq, Debug)]
pub enum FrameType {
    Data,
    Ack,
    Nack,
}

// A number that stands for no type: an error of this conversion alone.
#[derive(Clone, Copy, PartialEq, Eq, Debug)]
pub struct UnknownType(pub u8);

impl TryFrom<u8> for FrameType {
    type Error = UnknownType;

    ghost try_from_gives = { ReadsType };

    fn try_from(number: u8) -> Result<Self, UnknownType> {
        match number {
            1 => Ok(FrameType::Data),
            2 => Ok(FrameType::Ack),
            3 => Ok(FrameType::Nack),
            _ => Err(UnknownType(number)),
        }
    }
}

impl From<FrameType> for u8 {
    ghost from_gives = { λ frame_type number. number ≡ type_number frame_type };

    fn from(frame_type: FrameType) -> u8 {
        match frame_type {
            FrameType::Data => 1,
            FrameType::Ack => 2,
            FrameType::Nack => 3,
        }
    }
}
