//! Job specs: the job that a JSON object says, or its first fault.
#![tactic(auto)]

mod amounts;
mod defaults;
mod depend_keys;
mod depend_line;
mod fault;
mod job_amounts;
mod job_form;
mod layer_amounts;
mod layer_form;
mod spec;
mod tags;
mod words;

pub use amounts::within;
pub use depend_line::read_depend;
pub use fault::SpecFault;
pub use spec::read_spec;
pub use tags::read_tags;
