//! What would come of frames that are done.

use crate::trials::marks::Marks;
use farm_types::{Items, Slot};

/// The slots of the frames that would open, in order, and what would be met.
#[derive(Drop)]
pub struct Completion {
    pub opened: Items<Slot>,
    pub marks: Marks,
}
