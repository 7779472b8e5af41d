// A cable frame with the plain seal that opened.
ghost use Rattle.std.specs.Prelude.{◌≡◌, ◌≤◌, length, drop};
ghost use Rattle.refusal.specs.Outcomes.{Outcome};
ghost use Rattle.frame.specs.Frames.{fields_of};
ghost use Rattle.frame.specs.Refusing.{open_refusal};
ghost use Rattle.inspect.specs.Explanations.{plain_cable, message_id, kind_of};

use fields::Header;
use frame::{Address, FrameFault, WORKING_ROOM, Wire};
use line::Cable;
use seal::Plain;

const PLAIN_CABLE: Wire<'static, Cable, Plain> = Wire {
    line: &Cable,
    seal: &Plain,
};

#[derive(Clone, Copy)]
pub struct Opened {
    pub(crate) header: Header,
    // The clear payload, eight bytes for each block, and zeros behind it: an array, so that nothing is allocated for a frame
    // and explaining it cannot fail.
    work: [u8; WORKING_ROOM],
    ghost some: { 1 ≤ header.size },
    ghost few: { header.size ≤ 3 },
}

impl Opened {
    ghost use Rattle.inspect.specs.Printing.{payload_in, fields_in};

    // Opens the bytes of a frame, or tells why it is refused.
    pub fn open(expected: Address, frame: &[u8]) -> Result<Opened, FrameFault>
        ensures { Outcome (open_refusal plain_cable expected.network expected.destination frame.now) (λ opened. fields_in opened ≡ fields_of plain_cable frame.now) result }
    {
        let mut work = [0; WORKING_ROOM];
        let header = PLAIN_CABLE.open(expected, frame, &mut work)?;
        Ok(Opened { header, work })
    }

    pub fn payload(&self) -> &[u8]
        ensures payload { result.now ≡ payload_in self.now }
        ensures long { 8 ≤ length result.now }
    {
        &self.work[..8 * self.header.size as usize]
    }

    // Bytes 1 and 2 are the message ID of 12 bits and the kind of 4 bits.
    pub fn message_id(&self) -> u16
        ensures { result ≡ message_id (payload_in self.now) }
    {
        u16::from_be_bytes([self.work[1], self.work[2]]) / 16
    }

    // A number, as it is printed: kinds have no names yet.
    pub fn kind(&self) -> u8
        ensures { result ≡ kind_of (payload_in self.now) }
    {
        self.work[2] % 16
    }

    pub fn content(&self) -> &[u8]
        ensures { result.now ≡ drop 3 (payload_in self.now) }
    {
        &self.payload()[3..]
    }
}
