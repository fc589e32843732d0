//! Frame ranges: the text of a frame set, its numbers in order, and the text that it prints as. What reads job specs stands
//! on it; the model of the farm has a range's text and numbers alone.
#![tactic(auto)]

mod checks;
mod digits;
mod fault;
mod frame_set;
mod laws;
mod limits;
mod listing;
mod pieces;
mod print;
mod read;
mod section;
mod steps;
mod text;

pub use fault::RangeFault;
pub use frame_set::{FrameSet, parse_set};
pub use laws::{
    numbers_are_those_of_the_sections, numbers_stand_at_their_places, printed_sets_are_no_longer,
    printed_sets_are_read_again, sections_are_read_as_spelled,
};
pub use limits::MOST_NUMBERS;
pub use section::Section;
pub use text::Text;
