//! Recovery: the farm of a store's rows, or the first row at fault; and the rows of an older format made those in which rows are written.
#![tactic(auto)]

mod draft;
mod fault;
mod laws;
mod migration;
mod recovering;

pub use draft::FarmDraft;
pub use fault::{DraftFault, RecoverFault};
pub use laws::{
    farms_are_recovered, farms_of_runs_are_recovered, no_rows_are_the_empty_farm,
    rows_recovered_are_the_farms,
};
pub use migration::migrate;
pub use recovering::{Recovered, recover};
