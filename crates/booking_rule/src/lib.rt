//! The rule of the booking words: what the records, the words and what each seat knows have to do with each other.
#![tactic(auto)]

mod desk;
mod hold;
mod noted;
mod opening;
mod view;

pub use desk::Desk;
pub use hold::{Claim, Room, Take};
pub use noted::Noted;
pub use opening::Opening;
pub use view::View;
