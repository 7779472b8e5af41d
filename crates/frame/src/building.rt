// Building a frame.
ghost use Rattle.std.specs.Prelude.{◌≡◌, is_some, IfSome};
ghost use Rattle.refusal.specs.Outcomes.{Outcome};
ghost use Rattle.frame.specs.Frames.{wire_over};
ghost use Rattle.frame.specs.Refusing.{buildable, header_fits, build_refusal};
ghost use Rattle.frame.specs.Calls.{Built, OpensAgain, BuiltAlone};

use crate::fault::FrameFault;
use crate::line_and_seal::Wire;
use crate::payload::sealed_body;
use fields::{ClosedFrame, FrameType, Header, Size};
use line::Line;
use refusal::ShortBuffer;
use seal::Seal;
use wire::FRAME_ROOM;

// The most that a device ID and a network ID can be.
const MOST_DID: u16 = 0xFFF;

const MOST_NETWORK: u64 = 0xF_FFFF_FFFF;

// The size of a frame with this header and so many bytes behind byte 0, if its type and its size are right.
fn buildable_size(header: &Header, count: usize) -> Option<Size>
    ensures some { is_some result ≡ buildable header.now count }
    ensures size { IfSome result (λ size. size.count ≡ header.now.size) }
{
    let size = Size::try_from(header.size).ok()?;
    let known = FrameType::try_from(header.frame_type).is_ok();
    (known && count == 8 * size.count - 1).then_some(size)
}

fn header_fits(header: &Header) -> bool
    ensures { result ≡ header_fits header.now }
{
    header.repeater <= MOST_DID
        && header.destination <= MOST_DID
        && header.network <= MOST_NETWORK
        && header.source <= MOST_DID
}

// The size of the frame that is built, or what stands against building it, the lowest number first.
fn size_to_build(room: usize, header: &Header, count: usize) -> Result<Size, FrameFault>
    ensures { Outcome (build_refusal room header.now count) (λ size. size.count ≡ header.now.size) result }
{
    if room < FRAME_ROOM {
        return Err(FrameFault::Buffer(ShortBuffer));
    }
    let size = buildable_size(header, count).ok_or(FrameFault::TypeOrSize)?;
    if !header_fits(header) {
        return Err(FrameFault::OutOfRange);
    }
    Ok(size)
}

impl<L: Line, S: Seal> Wire<'_, L, S> {
    // Builds the frame of a header and of a clear payload, which is handed in without its byte 0, at the front of a buffer,
    // and tells how many bytes it has. A refusal writes nothing.
    pub fn build(self, header: &Header, behind: &[u8], out: &mut [u8]) -> Result<usize, FrameFault>
        ensures built { Built (wire_over L.code S.code self.entry) header.now behind.now out.old out.new result }
        ensures opens { OpensAgain (wire_over L.code S.code self.entry) header.now behind.now out.new result }
        ensures alone { BuiltAlone (wire_over L.code S.code self.entry) header.now behind.now out.new result }
    {
        let size = size_to_build(out.len(), header, behind.len())?;
        let closed = ClosedFrame {
            header: *header,
            body: sealed_body(self.seal, size, behind),
        };
        Ok(closed.values().write(self.line, out)?)
    }
}
