//! The word of a limit.

ghost use Rattle.std.specs.Prelude.{◌≡◌};
ghost use Rattle.frame_words.specs.Bits.{limit_bits, limit_of};

use crate::pair::{pack_pair, unpack_pair};

/// A limit's word, from the top: how many frames may run under it (32 bits), and how many do (32).
#[derive(Clone, Copy, Debug, PartialEq, Eq)]
pub struct LimitWord {
    pub most: u32,
    pub running: u32,
}

impl LimitWord {
    /// The word's bits.
    pub fn pack(self) -> u64
        ensures word { result ≡ limit_bits self }
        ensures back { limit_of result ≡ self }
    {
        pack_pair(self.most, self.running)
    }

    /// The word of these bits.
    pub fn unpack(word: u64) -> LimitWord
        ensures word { result ≡ limit_of word }
        ensures back { limit_bits result ≡ word }
    {
        let (most, running) = unpack_pair(word);
        LimitWord { most, running }
    }
}
