//! The tree of allocators of one thread, and the names of its allocators.
#![tactic(auto)]

mod chunks;
mod name;
mod name_refused;
mod names;
mod row;
mod rows;
mod solo;
mod solo_tree;
mod uses;
mod walk;

pub use name::Name;
pub use name_refused::NameRefused;
pub use names::Names;
pub use solo::{
    Solo, calls_of_one_thread_are_calls_of_its_tree,
    calls_that_were_planned_leave_what_the_plan_leaves,
};
pub use solo_tree::{SoloTree, every_tree_counts_its_calls, every_tree_is_lawful};
