//! One item of a trail. No value of this type is made.

/// An atomic step of a seat: its kind, the number of its word, its operand, the word that it found and the word that it left.
pub struct Noted {
    pub did: u64,
    pub word: u64,
    pub operand: u64,
    pub found: u64,
    pub wrote: u64,
}
