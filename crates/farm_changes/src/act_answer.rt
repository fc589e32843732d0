//! What is known of the farm's answer to an act.

use farm_types::Answer;

/// What is known of the farm's answer to an act, before what follows of depends is.
#[derive(Clone, Copy, Debug, PartialEq, Eq)]
pub enum ActAnswer {
    /// All of it.
    Whole(Answer),
    /// That a depend is added: its number and the frames that wait are known with what follows.
    DependAdded,
    /// That a depend is dropped: the frames that open are known with what follows.
    DependDropped,
}
