// XTEA with 32 cycles and a key of 128 bits.
ghost use Rattle.std.specs.Prelude.{◌≡◌, ◌<◌, ◌≤◌};
ghost use Rattle.seal.specs.Xtea.{word_at, key_words, running_sum, key_place, round_key, mixed_by, unmixed_by, cycled, xtea};
ghost use Rattle.seal.specs.Laws.{xtea-lawful};

use crate::Seal;
use crate::words::Words;

// The half rounds of 32 cycles.
const HALF_ROUNDS: u32 = 64;

// What the running sum grows by in each cycle.
const DELTA: u32 = 0x9E3779B9;

fn running_sum(half_round: u32) -> u32
    ensures { result ≡ running_sum half_round }
{
    half_round.div_ceil(2).wrapping_mul(DELTA)
}

fn key_place(half_round: u32) -> usize
    ensures place { result ≡ key_place half_round }
    ensures below { result < 4 }
{
    let sum = running_sum(half_round);
    let bits = if half_round % 2 == 0 { sum } else { sum >> 11 };
    (bits % 4) as usize
}

// The word of four bytes of a key from a place on, high byte first.
fn word_at(place: usize, key: &[u8; 16]) -> u32
    requires { place ≤ 12 }
    ensures { result ≡ word_at place key.now }
{
    u32::from_be_bytes([key[place], key[place + 1], key[place + 2], key[place + 3]])
}

// It has no `Debug`: a key is not to be printed.
#[derive(Clone, Copy, PartialEq, Eq)]
pub struct Xtea {
    key: [u32; 4],
}

impl Xtea {
    // The seal of a key of sixteen bytes.
    pub fn new(key: &[u8; 16]) -> Xtea
        ensures { result.key ≡ key_words key.now }
    {
        // Four calls, one for each word, as the definition has it: `map` over the four places is no shorter, and the check then
        // leaves goals that it finds alone here.
        Xtea {
            key: [
                word_at(0, key),
                word_at(4, key),
                word_at(8, key),
                word_at(12, key),
            ],
        }
    }

    fn round_key(&self, half_round: u32) -> u32
        ensures { result ≡ round_key self.now.key half_round }
    {
        running_sum(half_round).wrapping_add(self.key[key_place(half_round)])
    }

    // The words after the first `count` half rounds.
    fn mixed_by(&self, count: u32, words: Words) -> Words
        ensures { result ≡ mixed_by self.now.key count words }
    {
        (0..count).fold(words, |words, i| words.mix(self.round_key(i)))
    }

    // The words before the first `count` half rounds.
    fn unmixed_by(&self, count: u32, words: Words) -> Words
        ensures { result ≡ unmixed_by self.now.key count words }
    {
        (0..count)
            .rev()
            .fold(words, |words, i| words.unmix(self.round_key(i)))
    }

    // The words after all 32 cycles.
    fn cycle(&self, words: Words) -> Words
        ensures { result ≡ cycled self.now.key 32 words }
    {
        self.mixed_by(HALF_ROUNDS, words)
    }
}

impl Seal for Xtea {
    ghost code = { λ seal. xtea seal.key };

    ghost lawful = { λ seal. xtea-lawful seal.key };

    fn technique(&self) -> u8 {
        1
    }

    fn close(&self, block: u64) -> u64 {
        self.cycle(block.into()).into()
    }

    fn open(&self, block: u64) -> u64 {
        self.unmixed_by(HALF_ROUNDS, block.into()).into()
    }
}

#[cfg(test)]
mod tests {
    use super::*;
    use std::process::Abort;

    // Each with the block that it closes to.
    fn closes(rt: &impl Abort, key: [u8; 16], block: u64, closed: u64) {
        let seal = Xtea::new(&key);
        assert_eq!(rt; seal.close(block), closed);
        assert_eq!(rt; seal.open(closed), block);
    }

    #[test]
    fn published_figures(rt: HostRuntime) {
        let counting = [0, 1, 2, 3, 4, 5, 6, 7, 8, 9, 10, 11, 12, 13, 14, 15];
        closes(&rt, counting, 0x4142434445464748, 0x497DF3D072612CB5);
        closes(&rt, counting, 0x4141414141414141, 0xE78F2D13744341D8);
        closes(&rt, [0; 16], 0x4142434445464748, 0xA0390589F8B8EFA5);
    }

    #[test]
    fn worked_figure(rt: HostRuntime) {
        closes(&rt, [0x33; 16], 0x1E22334455667788, 0x3F56E8F5142D7278);
    }
}
