//! Two numbers of 32 bits in one word: a cap above, and what is used of it below.

ghost use Rattle.std.specs.Prelude.{◌≡◌};
ghost use Rattle.frame_words.specs.Bits.{pair_bits, pair_of};

/// The word of a cap and what is used.
pub(crate) fn pack_pair(cap: u32, used: u32) -> u64
    ensures word { result ≡ pair_bits (cap, used) }
    ensures back { pair_of result ≡ (cap, used) }
{
    (u64::from(cap) << 32) + u64::from(used)
}

/// The cap of a word, and what is used.
pub(crate) fn unpack_pair(word: u64) -> (u32, u32)
    ensures word { result ≡ pair_of word }
    ensures back { pair_bits result ≡ word }
{
    ((word >> 32) as u32, (word & 0xffff_ffff) as u32)
}
