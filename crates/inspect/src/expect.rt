// What frames are expected for.
ghost use Rattle.std.specs.Prelude.{◌≡◌};
ghost use Rattle.text.specs.Hexadecimal.{hex_value};
ghost use Rattle.inspect.specs.Expectations.{below, expected_from};

use frame::Address;
use text::hex_value;

fn below(end: u64, text: &[u8]) -> Option<u64>
    ensures { result ≡ below end (hex_value text.now) }
{
    hex_value(text).filter(|number| *number < end)
}

// The network ID, of 36 bits, and the device ID, of 12, that two texts write, or none where one is no such ID.
pub fn expected_from(network: &[u8], did: &[u8]) -> Option<Address>
    ensures { result ≡ expected_from network.now did.now }
{
    Some(Address {
        network: below(1 << 36, network)?,
        destination: below(1 << 12, did)? as u16,
    })
}
