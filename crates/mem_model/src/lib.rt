//! What the numbers of the accounts mean: allocators, charges, held bytes, requests, peaks and the state of a tree, each as a
//! definition in `specs/`, and beside most a plain, slow program whose contract is the definition.
#![tactic(auto)]

mod balance;
mod bound;
mod calls;
mod charge;
mod chunk_laws;
mod counted;
mod headroom;
mod held;
mod laws;
mod ledger;
mod ledgers;
mod numbered;
mod path;
mod peak_sample;
mod planned_calls;
mod request;
mod reservation;
mod sample;
mod tree_node;
#[cfg(test)]
mod worked_examples;

pub use balance::{
    a_fall_passes_on_what_was_beyond_the_reservation,
    a_rise_passes_on_what_is_beyond_the_reservation, numbers_that_balance_are_held,
    what_is_held_balances, what_is_passed_up_is_beyond_the_reservation,
};
pub use bound::fits;
pub use calls::{
    a_call_draws_at_most_one_number, allocators_are_charged_the_live_chunks,
    calls_that_give_all_back_leave_an_empty_tree, each_live_chunk_is_charged_to_one_allocator,
    peaks_are_the_greatest_of_the_samples, references_balance, states_that_calls_reach_are_lawful,
    what_is_held_is_within_the_peak,
};
pub use charge::{Charge, charged_at};
pub use chunk_laws::{a_chunk_is_charged_to_its_owner, the_next_owner_is_the_least};
pub use counted::{counted_reference_is_to_a_live_chunk, references_of_each_allocator_balance};
pub use headroom::{
    a_parent_leaves_its_headroom_and_the_unused_reservation,
    a_request_within_the_headroom_is_not_refused, an_allocator_is_over_a_limit_where_its_parent_is,
};
pub use held::held_of;
pub use laws::{
    closed_allocator_has_no_uses, each_call_keeps_the_law, numbers_stay_small,
    opened_tree_is_lawful, peaks_stay_small, samples_raise_peaks,
};
pub use ledger::Ledger;
pub use ledgers::{count_of, has_ledger, total_of, with_count};
pub use numbered::{Numbered, rise};
pub use path::levels_stand_on_the_path_to_the_root;
pub use peak_sample::{PeakSample, peak_of};
pub use planned_calls::{
    a_place_without_a_chunk_changes_nothing, planned_calls_run_as_the_calls_that_they_come_to,
};
pub use request::{is_past_limit, levels_of, refusal_of, refusing_level};
pub use reservation::beyond_reservation;
pub use sample::{force_sample, request_sample};
pub use tree_node::{TreeNode, is_allocator_tree};
