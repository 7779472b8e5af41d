// Frames opened and built: a header and a clear payload on any line, with any seal.
#![tactic(auto)]

mod address;
mod building;
mod display;
mod fault;
mod line_and_seal;
mod opening;
mod payload;
mod refuse;
mod working;

pub use address::Address;
pub use fault::FrameFault;
pub use line_and_seal::Wire;
pub use opening::WORKING_ROOM;
pub use payload::check_byte;
pub use working::WorkingBytes;

#[cfg(test)]
mod tests {
    use super::*;
    use fields::Header;
    use line::{Cable, Radio};
    use refusal::{Layer, Refusal};
    use seal::{Plain, Xtea};
    use std::test::Fail;

    const HEADER: Header = Header {
        repeater: 1,
        destination: 2,
        network: 1,
        source: 1,
        frame_type: 1,
        size: 1,
    };

    // The address of that header's frames.
    const ADDRESS: Address = Address {
        network: 1,
        destination: 2,
    };

    const PLAIN_CABLE: Wire<'static, Cable, Plain> = Wire {
        line: &Cable,
        seal: &Plain,
    };

    #[test]
    fn check_byte_figure(rt: HostRuntime) {
        assert_eq!(rt; check_byte(b"123456789"), 0xF4);
    }

    // The payload stands in front, zeros up to 24, and the bytes behind those stay.
    #[test]
    fn opened(rt: HostRuntime) {
        let frame = b"01>020000010111Y00E0@80<00";
        let payload = b"\xA4\x00\x15\x01\x02\x00\x30\x00";
        let mut work = [0xEE; 26];
        assert_eq!(rt; PLAIN_CABLE.open(ADDRESS, frame, &mut work), Ok(HEADER));
        assert!(rt; work[0..8] == payload[0..8]);
        assert!(rt; work[8..24] == [0; 16][0..16]);
        assert!(rt; work[24..26] == [0xEE; 2][0..2]);
    }

    // Refused for its network before its destination; the 24 working bytes are zero, but too few are not touched.
    #[test]
    fn refused(rt: HostRuntime) -> Result<(), Fail> {
        let frame = b"01>020000010111Y00E0@80<00";
        let elsewhere = Address {
            network: 3,
            destination: 3,
        };
        let mut work = [0xEE; 26];
        let mut short = [0xEE; 23];
        let Err(fault) = PLAIN_CABLE.open(elsewhere, frame, &mut work) else {
            return Err(Fail::new("opened"));
        };
        assert_eq!(rt; Refusal::from(fault).number, 5);
        assert_eq!(rt; Refusal::from(fault).layer, Layer::Frame);
        assert!(rt; work[0..24] == [0; 24][0..24]);
        assert!(rt; work[24..26] == [0xEE; 2][0..2]);
        let Err(first) = PLAIN_CABLE.open(elsewhere, b"", &mut short) else {
            return Err(Fail::new("opened"));
        };
        assert_eq!(rt; Refusal::from(first).number, 1);
        assert!(rt; short == [0xEE; 23]);
        Ok(())
    }

    // Built from the header and the payload of a frame, it is that frame; and with another seal on another line it opens again.
    #[test]
    fn built(rt: HostRuntime) {
        let frame = b"01>020000010111Y00E0@80<00";
        let behind = b"\x00\x15\x01\x02\x00\x30\x00";
        let mut out = [0xEE; 50];
        assert_eq!(rt; PLAIN_CABLE.build(&HEADER, behind, &mut out), Ok(26));
        assert!(rt; out[0..26] == frame[0..26]);
        assert!(rt; out[26..50] == [0xEE; 24][0..24]);
        let radio = Radio::new();
        let seal = Xtea::new(&[0x33; 16]);
        let wire = Wire {
            line: &radio,
            seal: &seal,
        };
        assert_eq!(rt; wire.build(&HEADER, behind, &mut out), Ok(26));
        let mut work = [0xEE; 24];
        assert_eq!(rt; wire.open(ADDRESS, &out[0..26], &mut work), Ok(HEADER));
        assert!(rt; work[1..8] == behind[0..7]);
    }
}
