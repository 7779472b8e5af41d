// Text as the programs read and write it: lines, and numbers in hexadecimal.
#![tactic(auto)]

mod fill_text;
mod line;
mod read_hex;
mod show_hex;
mod write_hex;

pub use fill_text::fill;
pub use line::frame_in;
pub use read_hex::hex_value;
pub use show_hex::{Hex, HexBytes};
pub use write_hex::hex;

#[cfg(test)]
mod tests {
    use super::*;
    use std::alloc::AllocError;

    #[test]
    fn last_digits(rt: HostRuntime) -> Result<(), AllocError> {
        let heap = rt.alloc();
        assert!(rt; hex::<1>(0xAB) == *b"B");
        assert!(rt; hex::<9>(0xF_1234_5678) == *b"F12345678");
        let text = format!(in heap; "{} {}", Hex::<3>(0x1002), Hex::<17>(0xA))?;
        assert_eq!(rt; text.as_str(), "002 0000000000000000A");
        Ok(())
    }

    #[test]
    fn bytes_with_and_without_blanks(rt: HostRuntime) -> Result<(), AllocError> {
        let heap = rt.alloc();
        let bytes = [0x01, 0xAB];
        let joined = format!(in heap; "{}", HexBytes::new(&bytes))?;
        let spaced = format!(in heap; "{}", HexBytes::spaced(&bytes))?;
        assert_eq!(rt; joined.as_str(), "01AB");
        assert_eq!(rt; spaced.as_str(), " 01 AB");
        Ok(())
    }

    #[test]
    fn filled_anew(rt: HostRuntime) -> Result<(), AllocError> {
        let mut text = String::new(rt.alloc());
        fill(&mut text, &Hex::<3>(0x123))?;
        fill(&mut text, &HexBytes::spaced(&[0xAB]))?;
        assert_eq!(rt; text.as_str(), " AB");
        Ok(())
    }

    #[test]
    fn digits_with_or_without_their_prefix(rt: HostRuntime) {
        assert_eq!(rt; hex_value(b"1"), Some(1));
        assert_eq!(rt; hex_value(b"0x002"), Some(2));
        assert_eq!(rt; hex_value(b"FfF"), Some(0xFFF));
    }

    #[test]
    fn no_number(rt: HostRuntime) {
        assert_eq!(rt; hex_value(b""), None);
        assert_eq!(rt; hex_value(b"0x"), None);
        assert_eq!(rt; hex_value(b"12g"), None);
        assert_eq!(rt; hex_value(b"00000000000000001"), None);
    }
}
