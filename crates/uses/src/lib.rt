//! Small callers of the tree, as a caller writes them, each proved: what it ensures follows from the clauses of the calls.
#![tactic(auto)]

mod allocators;
mod batches;
mod memories;
mod queries;
mod references;
mod reports;
mod tables;
mod words;

pub use allocators::{ask, finish, open_operator, open_query};
pub use batches::{pass_column, pass_through};
pub use memories::{store_all, store_in_tree};
pub use queries::{Unanswered, print_query};
pub use references::{hand_over, scan_and_filter};
pub use reports::{is_own_report_lawful, name_operator};
pub use tables::{read_again, write_anew};
pub use words::{charge_for_a_while, held_after_a_while, move_charge};
