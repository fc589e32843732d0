//! Tests of a scheduler that serves connections: what no clause says of dispatchers that stand beside each other, of passes, and of callers over TCP.
#![tactic(auto)]

#[cfg(test)]
mod beside;
#[cfg(test)]
mod caller;
#[cfg(test)]
mod ends;
#[cfg(test)]
mod held;
#[cfg(test)]
mod histories;
#[cfg(test)]
mod passes;
#[cfg(test)]
mod programs;
#[cfg(test)]
mod served;
