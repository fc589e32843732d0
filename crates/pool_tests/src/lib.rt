//! Tests of what no clause says of a listener over the network, and of workers: that a connection comes from the caller, and that each one is handled.
#![tactic(auto)]

#[cfg(test)]
mod callers;
#[cfg(test)]
mod workers;
