//! The word of what a slot's frame takes beside its cores.

ghost use Rattle.std.specs.Prelude.{◌≡◌};
ghost use Rattle.frame_words.specs.Bits.{FitsAmount, amount_bits, amount_of};

use farm_types::{Kb, ShowNo};

/// A slot's second word, from the top: the show whose subscription pays (16 bits), the limit that its layer names (8: 0 for
/// none, else the limit's number plus 1), memory in KB (40).
#[derive(Clone, Copy, Debug, PartialEq, Eq)]
pub struct AmountWord {
    pub show: ShowNo,
    pub limit: u8,
    pub memory: Kb,
}

impl AmountWord {
    /// The word's bits. The memory is below 2^40.
    pub fn pack(self) -> u64
        requires { FitsAmount self }
        ensures word { result ≡ amount_bits self }
        ensures back { amount_of result ≡ self }
    {
        (u64::from(self.show.0) << 48) + (u64::from(self.limit) << 40) + self.memory.0
    }

    /// The word of these bits.
    pub fn unpack(word: u64) -> AmountWord
        ensures word { result ≡ amount_of word }
        ensures fits { FitsAmount result }
        ensures back { amount_bits result ≡ word }
    {
        AmountWord {
            show: ShowNo((word >> 48) as u16),
            limit: ((word >> 40) & 0xff) as u8,
            memory: Kb(word & 0xff_ffff_ffff),
        }
    }
}
