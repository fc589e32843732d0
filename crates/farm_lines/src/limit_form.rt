//! The fields of what is asked of a limit, and what they say.

use farm_types::Text;

/// The fields of a limit before its amount is judged: `most` is any number of 64 bits.
#[derive(Debug, Drop)]
pub struct LimitForm {
    pub name: Text,
    pub most: u64,
}

/// What is asked of a limit: its name, and how many frames of the layers that have it run at most.
#[derive(Debug, Drop)]
pub struct LimitLine {
    pub name: Text,
    pub most: u32,
}
