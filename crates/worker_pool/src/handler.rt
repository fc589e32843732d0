//! What is done with a connection.

use listener::Listener;

/// Answers callers, in many threads.
pub trait Handler<L: Listener> {
    /// What one worker keeps from one connection to the next.
    type State;

    /// Answers the caller of a connection, to its end.
    fn handle(&self, state: &mut Self::State, input: L::In, output: L::Out);
}
