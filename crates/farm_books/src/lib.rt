//! The books of the farm together: what is read of them, when a frame may be booked, and one call for each kind of row that puts it in.
#![tactic(auto)]

mod begin;
mod booking;
mod books;
mod check;
mod clearing;
mod copy;
mod depending;
mod finish;
mod install;
mod install_job;
mod limits;
mod look;
mod reserve;
mod restore;
mod rows;
mod shows;
mod used;

pub use begin::Booking;
pub use books::Books;
pub use look::is_attempt;
