// Opening a frame.
ghost use Rattle.std.specs.Prelude.{◌≡◌, ⊤};
ghost use Rattle.refusal.specs.Outcomes.{Outcome};
ghost use Rattle.wire.specs.Frames.{values_of};
ghost use Rattle.fields.specs.Closed.{IsClosed};
ghost use Rattle.frame.specs.Frames.{wire_over};
ghost use Rattle.frame.specs.Refusing.{type_and_size, header_refusal, open_refusal};
ghost use Rattle.frame.specs.Calls.{OpenedInto, Opened, WellFormed, BuildsAgain, OpensAlone};

use crate::address::Address;
use crate::fault::FrameFault;
use crate::line_and_seal::Wire;
use crate::payload::{filling_for, open_body};
use crate::working::WorkingBytes;
use fields::{ClosedFrame, FrameType, Header, Size};
use line::Line;
use refusal::ShortBuffer;
use seal::Seal;
use wire::FrameValues;

// The working bytes of an opening: those of the longest payload.
pub const WORKING_ROOM: usize = 24;

fn type_and_size(header: &Header, size: Size) -> bool
    ensures { result ≡ type_and_size header.now size.count }
{
    FrameType::try_from(header.frame_type).is_ok() && usize::from(header.size) == size.count
}

// Tells what is not as expected in a frame, the lowest number first.
fn accept(closed: &ClosedFrame, address: Address, filling: u8) -> Result<(), FrameFault>
    ensures { Outcome (header_refusal address.network address.destination filling closed.now.header closed.now.body.size.count closed.now.body.filling) (λ _. ⊤) result }
{
    if closed.header.network != address.network {
        return Err(FrameFault::Network);
    }
    if closed.header.destination != address.destination {
        return Err(FrameFault::Destination);
    }
    if !type_and_size(&closed.header, closed.body.size) {
        return Err(FrameFault::TypeOrSize);
    }
    if closed.body.filling != filling {
        return Err(FrameFault::Technique);
    }
    Ok(())
}

impl<L: Line, S: Seal> Wire<'_, L, S> {
    // Reads a frame, and tells what is wrong with it if anything is.
    fn read_closed(self, address: Address, frame: &[u8]) -> Result<ClosedFrame, FrameFault>
        ensures { Outcome (open_refusal (wire_over L.code S.code self.entry) address.network address.destination frame.now) (λ closed. IsClosed (values_of (L.code self.entry.line.now) frame.now) closed.header closed.body) result }
    {
        let values = FrameValues::read(self.line, frame)?;
        let closed = ClosedFrame::read(&values);
        accept(&closed, address, filling_for(self.seal, closed.body.size))?;
        Ok(closed)
    }

    // Opens a frame into just the working bytes that it needs.
    fn open_into(
        self,
        address: Address,
        frame: &[u8],
        work: &mut [u8; WORKING_ROOM],
    ) -> Result<Header, FrameFault>
        ensures { OpenedInto (wire_over L.code S.code self.entry) address.network address.destination frame.now work.new result }
    {
        let guard = WorkingBytes { bytes: work };
        let closed = self.read_closed(address, frame)?;
        open_body(self.seal, &closed.body, guard.bytes);
        guard.keep();
        Ok(closed.header)
    }

    // Opens the bytes of a frame for a network and a destination: answers its header, and leaves its clear payload in the
    // working bytes, with zeros behind it up to 24. After a refusal those 24 are zero, but a call without 24 touches nothing.
    pub fn open(self, address: Address, frame: &[u8], work: &mut [u8]) -> Result<Header, FrameFault>
        ensures opened { Opened (wire_over L.code S.code self.entry) address.network address.destination frame.now work.old work.new result }
        ensures formed { WellFormed (wire_over L.code S.code self.entry) frame.now result }
        ensures again { BuildsAgain (wire_over L.code S.code self.entry) frame.now result }
        ensures alone { OpensAlone (wire_over L.code S.code self.entry) frame.now result }
    {
        let Some(room) = work.first_chunk_mut::<WORKING_ROOM>() else {
            return Err(FrameFault::Buffer(ShortBuffer));
        };
        self.open_into(address, frame, room)
    }
}
