//! The word of what a host has free.

ghost use Rattle.std.specs.Prelude.{◌≡◌};
ghost use Rattle.frame_words.specs.Bits.{FitsHost, host_bits, host_of};

use farm_types::{Cores, Kb};

/// A host's word, from the top: free cores in hundredths of a core (24 bits), free memory in KB (40).
#[derive(Clone, Copy, Debug, PartialEq, Eq)]
pub struct HostWord {
    pub cores: Cores,
    pub memory: Kb,
}

impl HostWord {
    /// The word's bits. The cores are below 2^24, the memory below 2^40.
    pub fn pack(self) -> u64
        requires { FitsHost self }
        ensures word { result ≡ host_bits self }
        ensures back { host_of result ≡ self }
    {
        (u64::from(self.cores.0) << 40) + self.memory.0
    }

    /// The word of these bits.
    pub fn unpack(word: u64) -> HostWord
        ensures word { result ≡ host_of word }
        ensures fits { FitsHost result }
        ensures back { host_bits result ≡ word }
    {
        HostWord {
            cores: Cores((word >> 40) as u32),
            memory: Kb(word & 0xff_ffff_ffff),
        }
    }
}
