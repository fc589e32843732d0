//! What is asked of a subscription.

use crate::numbers::Cores;
use crate::text::Text;

/// A subscription of a show to an allocation (`facility.tag`), with its size and its burst (hundredths of a core).
#[derive(Debug, Drop)]
pub struct SubLine {
    pub show: Text,
    pub alloc: Text,
    pub size: Cores,
    pub burst: Cores,
}
