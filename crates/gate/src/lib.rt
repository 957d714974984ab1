//! Where a test holds the threads of a run: a schedule hook, one that holds nobody, and one that wants two jobs beside each other.
#![tactic(auto)]

mod gate;
mod hold_first;
mod open_gate;

pub use gate::Gate;
pub use hold_first::HoldFirst;
pub use open_gate::OpenGate;
