// The lines that are printed for a frame.
ghost use Rattle.std.specs.Prelude.{◌≡◌, Some};
ghost use Rattle.fields.specs.Types.{type_of};
ghost use Rattle.inspect.specs.Explanations.{type_name, header_line, content_line, check_line, refused_line};
ghost use Rattle.inspect.specs.Printing.{payload_in};

use crate::opened::Opened;
use fields::{FrameType, Header};
use frame::{FrameFault, check_byte};
use refusal::Refusal;
use std::fmt;
use text::{Hex, HexBytes};

// The name of the type that a number stands for.
#[derive(Clone, Copy)]
struct TypeName(u8);

impl TypeName {
    pub fn name(self) -> &'static str
        ensures { result.now ≡ type_name (type_of self.0) }
    {
        match FrameType::try_from(self.0) {
            Ok(frame_type) => frame_type.name(),
            Err(_) => "unknown",
        }
    }
}

impl fmt::Display for TypeName {
    ghost output = { λ name. Some (type_name (type_of name.0)) };

    fn fmt<W: fmt::Write>(&self, f: &mut fmt::Formatter<W>) -> fmt::Result {
        f.write_str(self.name())
    }
}

// Who sends what to whom.
#[derive(Clone, Copy)]
pub struct HeaderLine<'a>(pub &'a Header);

impl fmt::Display for HeaderLine<'_> {
    ghost output = { λ line. Some (header_line line.0.now) };

    fn fmt<W: fmt::Write>(&self, f: &mut fmt::Formatter<W>) -> fmt::Result {
        let header = self.0;
        let name = TypeName(header.frame_type);
        let size = Hex::<1>(header.size.into());
        let source = Hex::<3>(header.source.into());
        let destination = Hex::<3>(header.destination.into());
        let network = Hex::<9>(header.network);
        let repeater = Hex::<3>(header.repeater.into());
        writeln!(
            f,
            "{name} frame of size {size} from 0x{source} to 0x{destination}, network 0x{network}, repeater 0x{repeater}"
        )
    }
}

#[derive(Clone, Copy)]
pub struct ContentLine<'a>(pub &'a Opened);

impl fmt::Display for ContentLine<'_> {
    ghost output = { λ line. Some (content_line (payload_in line.0.now)) };

    fn fmt<W: fmt::Write>(&self, f: &mut fmt::Formatter<W>) -> fmt::Result {
        let message = Hex::<3>(self.0.message_id().into());
        let kind = Hex::<1>(self.0.kind().into());
        let content = HexBytes::spaced(self.0.content());
        writeln!(
            f,
            "  message ID 0x{message}, kind 0x{kind}, content{content}"
        )
    }
}

// Whether byte 0 of the payload is the remainder of the bytes behind it.
#[derive(Clone, Copy)]
pub struct CheckLine<'a>(pub &'a Opened);

impl fmt::Display for CheckLine<'_> {
    ghost output = { λ line. Some (check_line (payload_in line.0.now)) };

    fn fmt<W: fmt::Write>(&self, f: &mut fmt::Formatter<W>) -> fmt::Result {
        let payload = self.0.payload();
        let byte = payload[0];
        let right = check_byte(&payload[1..]);
        write!(f, "  byte 0 is 0x{}", Hex::<2>(byte.into()))?;
        if byte == right {
            writeln!(f, ", as it should be")
        } else {
            writeln!(f, ", but should be 0x{}", Hex::<2>(right.into()))
        }
    }
}

#[derive(Clone, Copy)]
pub struct RefusedLine(pub FrameFault);

impl fmt::Display for RefusedLine {
    ghost output = { λ line. Some (refused_line line.0) };

    fn fmt<W: fmt::Write>(&self, f: &mut fmt::Formatter<W>) -> fmt::Result {
        let fault = self.0;
        let refusal = Refusal::from(fault);
        let layer = refusal.layer;
        writeln!(f, "{refusal}, {layer}: {fault}")
    }
}
