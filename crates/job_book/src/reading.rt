//! What is read of the book.

pub(crate) mod frame_view;
pub(crate) mod jobs;
pub(crate) mod layer_index;
pub(crate) mod layers_of;
pub(crate) mod ready;
pub(crate) mod rows;
