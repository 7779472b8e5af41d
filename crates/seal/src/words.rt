// A block of 64 bits as two words, and a half round of XTEA on them.
ghost use Rattle.std.specs.Prelude.{◌≡◌};
ghost use Rattle.seal.specs.Xtea.{words_of, block_of, stirred, mixed, unmixed};

#[derive(Clone, Copy, PartialEq, Eq, Debug)]
pub(crate) struct Words {
    high: u32,
    low: u32,
}

impl From<u64> for Words {
    ghost from_gives = { λ block words. words ≡ words_of block };

    fn from(block: u64) -> Words {
        Words {
            high: (block >> 32) as u32,
            low: (block & 0xFFFF_FFFF) as u32,
        }
    }
}

impl From<Words> for u64 {
    ghost from_gives = { λ words block. block ≡ block_of words };

    fn from(words: Words) -> u64 {
        u64::from(words.high) << 32 | u64::from(words.low)
    }
}

fn stir(word: u32) -> u32
    ensures { result ≡ stirred word }
{
    ((word << 4) ^ (word >> 5)).wrapping_add(word)
}

impl Words {
    // A half round under its key.
    pub(crate) fn mix(self, key: u32) -> Words
        ensures { result ≡ mixed key self }
    {
        Words {
            high: self.low,
            low: self.high.wrapping_add(stir(self.low) ^ key),
        }
    }

    // A half round taken back.
    pub(crate) fn unmix(self, key: u32) -> Words
        ensures { result ≡ unmixed key self }
    {
        Words {
            high: self.low.wrapping_sub(stir(self.high) ^ key),
            low: self.high,
        }
    }
}
