// What the bridge answers to a line of its input.
ghost use Rattle.std.specs.Prelude.{◌≡◌, Some, IfOk, is_ok, is_some, not};
ghost use Rattle.refusal.specs.Outcomes.{Outcome};
ghost use Rattle.bridge.specs.Answers.{refused_for, carried_for, text_for, answer_text};

use line::{Cable, Radio};
use refusal::Refusal;
use std::alloc::{AllocError, Global};
use std::fmt;
use text::HexBytes;
use wire::{CarryFault, FRAME_ROOM, carry};

// The bytes that carry the frame on the radio, or why there are none.
#[derive(Drop)]
pub struct Answer {
    pub frame: Result<Vec<u8>, CarryFault>,
}

impl Answer {
    // Whether the frame was carried, which is what the tally counts.
    pub fn carried(&self) -> bool
        ensures { result ≡ is_ok self.now.frame }
    {
        self.frame.is_ok()
    }
}

// Carries a cable frame to the radio.
pub fn answer_to(heap: Global, radio: &Radio, frame: &[u8]) -> Result<Answer, AllocError>
    ensures carried { IfOk result (λ a. is_ok a.frame ≡ not (is_some (refused_for frame.now))) }
    ensures outcome { IfOk result (λ a. Outcome (refused_for frame.now) (λ bytes. bytes.items ≡ carried_for frame.now) a.frame) }
    ensures printed { IfOk result (λ a. answer_text a ≡ text_for frame.now) }
{
    let mut out = [0u8; FRAME_ROOM];
    let frame = match carry(&Cable, radio, frame, &mut out) {
        Ok(count) => Ok(out[..count].to_vec(heap)?),
        Err(fault) => Err(fault),
    };
    Ok(Answer { frame })
}

// A line of its own: the radio frame in hexadecimal, or the refusal.
impl fmt::Display for Answer {
    ghost output = { λ answer. Some (answer_text answer) };

    fn fmt<W: fmt::Write>(&self, f: &mut fmt::Formatter<W>) -> fmt::Result {
        match &self.frame {
            Ok(bytes) => HexBytes::new(bytes).fmt(f)?,
            Err(fault) => Refusal::from(*fault).fmt(f)?,
        }
        f.write_str("\n")
    }
}

#[cfg(test)]
mod tests {
    use super::*;

    #[test]
    fn carried(rt: HostRuntime) -> Result<(), AllocError> {
        let heap = rt.alloc();
        let answer = answer_to(heap, &Radio::new(), b"01>020000010111Y00E0@80<00")?;
        assert!(rt; answer.frame.is_ok());
        let text = format!(in heap; "{answer}")?;
        let expected = "B4BCCCB4B3B4B4B4B4B4BCB4BCBCBC9CB4B439B434C4B4C5B4B4\n";
        assert_eq!(rt; text.as_str(), expected);
        Ok(())
    }

    #[test]
    fn refused(rt: HostRuntime) -> Result<(), AllocError> {
        let heap = rt.alloc();
        let answer = answer_to(heap, &Radio::new(), b"")?;
        assert!(rt; answer.frame.is_err());
        let text = format!(in heap; "{answer}")?;
        assert_eq!(rt; text.as_str(), "!02 000\n");
        Ok(())
    }
}
