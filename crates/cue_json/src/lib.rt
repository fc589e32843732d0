//! Fields of JSON objects, each read or named as the fault. What reads lines stands on it, and the model of the farm doesn't.
#![tactic(auto)]

mod fault;
mod fields;
mod item_list;
mod items;
mod keys;
mod line;
mod numbers;
mod others;
mod values;

pub use fault::{FieldFault, FieldName};
pub use fields::{flag, has, list, object, signed, text, whole};
pub use item_list::{ItemReader, read_items, read_list};
pub use items::{object_item, text_item};
pub use line::{LineFault, object_of};
pub use others::no_others;
pub use values::{Map, Value, as_object};
