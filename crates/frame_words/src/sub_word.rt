//! The word of a subscription's burst.

ghost use Rattle.std.specs.Prelude.{◌≡◌};
ghost use Rattle.frame_words.specs.Bits.{sub_bits, sub_of};

use crate::pair::{pack_pair, unpack_pair};
use farm_types::Cores;

/// A subscription's word, from the top: its burst (32 bits) and what is booked of it (32), in hundredths of a core.
#[derive(Clone, Copy, Debug, PartialEq, Eq)]
pub struct SubWord {
    pub burst: Cores,
    pub booked: Cores,
}

impl SubWord {
    /// The word's bits.
    pub fn pack(self) -> u64
        ensures word { result ≡ sub_bits self }
        ensures back { sub_of result ≡ self }
    {
        pack_pair(self.burst.0, self.booked.0)
    }

    /// The word of these bits.
    pub fn unpack(word: u64) -> SubWord
        ensures word { result ≡ sub_of word }
        ensures back { sub_bits result ≡ word }
    {
        let (burst, booked) = unpack_pair(word);
        SubWord {
            burst: Cores(burst),
            booked: Cores(booked),
        }
    }
}
