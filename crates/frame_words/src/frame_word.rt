//! The word of a slot: its phase, its version, and where and with how many cores its frame runs.

ghost use Rattle.std.specs.Prelude.{◌≡◌};
ghost use Rattle.frame_words.specs.Bits.{FitsFrame, frame_bits, frame_of};

use farm_types::{Cores, HostNo, Version};

/// A slot's word, from the top: phase (4 bits), version (24), host (16), cores in hundredths of a core (20). The host is 0
/// outside SETUP and RUNNING, and the cores are 0 in FREE.
#[derive(Clone, Copy, Debug, PartialEq, Eq)]
pub struct FrameWord {
    pub phase: u8,
    pub version: Version,
    pub host: HostNo,
    pub cores: Cores,
}

impl FrameWord {
    /// The word's bits. The phase is below 16, the version below 2^24, the cores below 2^20.
    pub fn pack(self) -> u64
        requires { FitsFrame self }
        ensures word { result ≡ frame_bits self }
        ensures back { frame_of result ≡ self }
    {
        (u64::from(self.phase) << 60)
            + (u64::from(self.version.0) << 36)
            + (u64::from(self.host.0) << 20)
            + u64::from(self.cores.0)
    }

    /// The word of these bits.
    pub fn unpack(word: u64) -> FrameWord
        ensures word { result ≡ frame_of word }
        ensures fits { FitsFrame result }
        ensures back { frame_bits result ≡ word }
    {
        FrameWord {
            phase: (word >> 60) as u8,
            version: Version(((word >> 36) & 0xff_ffff) as u32),
            host: HostNo(((word >> 20) & 0xffff) as u16),
            cores: Cores((word & 0xf_ffff) as u32),
        }
    }
}
