//! The fields of what is asked of a subscription.

use farm_types::Text;

/// The fields of a subscription before its amounts are judged: size and burst are any numbers of 64 bits.
#[derive(Debug, Drop)]
pub struct SubForm {
    pub show: Text,
    pub alloc: Text,
    pub size: u64,
    pub burst: u64,
}
