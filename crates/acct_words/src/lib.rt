//! The accounts of a tree of allocators as atomic counters, without a lock. Each atomic step of a caller is an event of the pure
//! machine of `acct_core`, and each caller's token shows the steps that it made, with what each of them returned.
#![tactic(auto)]

mod budget;
mod charge;
mod chunk_seat;
mod climb;
mod fixed;
mod force;
mod headroom;
mod laws;
mod level;
mod opening;
mod pass;
mod peak;
mod release;
mod rule;
mod steps;
mod view;
mod words;

pub use budget::{Budget, MOST_BYTES, MOST_TURNS, budgets_are_bounded_by_powers_of_two};
pub use chunk_seat::ChunkSeat;
pub use fixed::{Fixed, Opening};
pub use laws::{
    charges_that_come_back_leave_nothing, held_words_stay_small,
    peaks_have_reached_what_was_charged,
};
pub use opening::is_fixed_tree;
pub use pass::Pass;
pub use view::Shown;
pub use words::Words;
