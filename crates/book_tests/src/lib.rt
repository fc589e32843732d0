//! Tests of the books' public calls that no line of a session reaches: each is run once where memory is there.
#![tactic(auto)]

#[cfg(test)]
mod allocs;
#[cfg(test)]
mod hosts;
#[cfg(test)]
mod jobs;
#[cfg(test)]
mod subs;
