// The clear payload of a frame: its byte 0, and its blocks closed and opened.
ghost use Rattle.std.specs.Prelude.{◌≡◌, ◌+◌, ◌-◌, ◌*◌, ◌^◌, ◌<◌, ◌≤◌, ◌++◌, length, take, drop, replicate};
ghost use Rattle.std.specs.Int.Digits.{number_from_digits};
ghost use Rattle.arithmetic.specs.Division.{check_message, IsRemainder};
ghost use Rattle.fields.specs.Bodies.{blocks_of};
ghost use Rattle.frame.specs.Payloads.{check_byte, with_check_byte, closed_from, opened_from, seal_filling};

use crate::working::clear;
use arithmetic::Division;
use fields::{Body, Size};
use seal::Seal;

// What byte 0 of a payload is where these bytes stand behind it.
pub fn check_byte(behind: &[u8]) -> u8
    ensures value { result ≡ check_byte behind.now }
    ensures remainder { IsRemainder 8 0x107 (number_from_digits 2 (check_message 8 behind.now)) result }
{
    let division = Division {
        degree: 8,
        divisor: 0x107,
        rest: 0,
    };
    division.check(behind)
}

// A payload at the front of room for the longest, zeros behind it: an array, since a node has no heap.
fn clear_payload(behind: &[u8]) -> [u8; 24]
    requires { length behind.now ≤ 23 }
    ensures { result ≡ with_check_byte behind.now ++ replicate (23 - length behind.now) 0 }
{
    let mut payload = [0u8; 24];
    payload[0] = check_byte(behind);
    payload[1..1 + behind.len()].copy_from_slice(behind);
    payload
}

// The closed blocks of a payload, at the front of room for the most, zeros behind them: an array, since a node has no heap.
// Here and below seal and size are no struct of their own: a body has a size, and a seal has none.
fn close_blocks<S: Seal>(seal: &S, size: Size, payload: &[u8]) -> [u64; 3]
    requires { length payload.now ≡ 8 * size.count }
    ensures closed { take size.count result ≡ closed_from (S.code seal.now) size.count payload.now }
    ensures blank { drop size.count result ≡ replicate (3 - size.count) 0 }
{
    let (blocks, _) = payload.as_chunks::<8>();
    let mut closed = [0u64; 3];
    // By index: tried with `iter_mut` and `zip`, after which a proof knows nothing of what was written.
    for (k, bytes) in blocks.iter().enumerate() {
        closed[k] = seal.close(u64::from_be_bytes(*bytes));
    }
    closed
}

// The bits that a seal puts behind so many blocks.
pub(crate) fn filling_for<S: Seal>(seal: &S, size: Size) -> u8
    ensures value { result ≡ seal_filling (S.code seal.now) size.count }
    ensures fits { result < 4 ^ size.count }
{
    seal.technique() * 4u8.pow(size.count as u32 - 1)
}

// The body of a frame whose payload has these bytes behind its byte 0.
pub(crate) fn sealed_body<S: Seal>(seal: &S, size: Size, behind: &[u8]) -> Body
    requires { length behind.now + 1 ≡ 8 * size.count }
    ensures size { result.size ≡ size }
    ensures closed { blocks_of result ≡ closed_from (S.code seal.now) size.count (with_check_byte behind.now) }
    ensures filling { result.filling ≡ seal_filling (S.code seal.now) size.count }
{
    let payload = clear_payload(behind);
    Body {
        blocks: close_blocks(seal, size, &payload[..8 * size.count]),
        size,
        filling: filling_for(seal, size),
    }
}

// Opens blocks into the front of the working bytes.
fn put_blocks<S: Seal>(seal: &S, blocks: &[u64], work: &mut [u8])
    requires { 8 * length blocks.now ≤ length work.old }
    ensures { work.new ≡ opened_from (S.code seal.now) (length blocks.now) blocks.now ++ drop (8 * length blocks.now) work.old }
{
    // By index: tried with `chunks_exact_mut` and `zip`, after which a proof knows nothing of what was written.
    for (k, block) in blocks.iter().enumerate() {
        work[8 * k..8 * k + 8].copy_from_slice(&seal.open(*block).to_be_bytes());
    }
}

// Leaves the clear payload of a body in the working bytes, with zeros behind it.
pub(crate) fn open_body<S: Seal>(seal: &S, body: &Body, work: &mut [u8])
    requires { length work.old ≡ 24 }
    ensures { work.new ≡ opened_from (S.code seal.now) body.now.size.count (blocks_of body.now) ++ replicate (24 - 8 * body.now.size.count) 0 }
{
    clear(work);
    put_blocks(seal, body.blocks(), work);
}
