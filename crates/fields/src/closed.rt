// A frame whose blocks are still closed.
ghost use Rattle.std.specs.Prelude.{◌≡◌, ◌+◌, ◌*◌};
ghost use Rattle.std.specs.Int.Digits.{number_from_digits};
ghost use Rattle.wire.specs.Values.{values_in};
ghost use Rattle.fields.specs.Layout.{frame_of, body_in};
ghost use Rattle.fields.specs.Bodies.{filling_of, number_in};
ghost use Rattle.fields.specs.Closed.{IsClosed};

use crate::body::Body;
use crate::header::Header;
use crate::write::put_frame;
use wire::FrameValues;

#[derive(Clone, Copy, PartialEq, Eq, Debug)]
pub struct ClosedFrame {
    pub header: Header,
    pub body: Body,
}

impl ClosedFrame {
    // The header and the body of a frame.
    pub fn read(frame: &FrameValues) -> ClosedFrame
        ensures closed { IsClosed (values_in frame.now) result.header result.body }
        ensures filling { result.body.filling ≡ filling_of result.body.size.count (number_from_digits 64 (body_in (values_in frame.now))) }
    {
        ClosedFrame {
            header: Header::read(frame),
            body: Body::read(frame),
        }
    }

    // How many values the frame has.
    fn count(&self) -> usize
        ensures { result ≡ 15 + 11 * self.now.body.size.count }
    {
        15 + 11 * self.body.size.count
    }

    // The values of the frame; a number of the header that does not fit its field is cut to its last digits.
    pub fn values(&self) -> FrameValues
        ensures { values_in result ≡ frame_of self.now.header self.now.body.size.count (number_in self.now.body) }
    {
        let count = self.count();
        let mut values = FrameValues::room();
        put_frame(self, &mut values[..count]);
        FrameValues::new(values, count).unwrap()
    }
}
