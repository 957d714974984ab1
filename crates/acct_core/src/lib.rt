//! The accounts of a tree of allocators with calls in flight, as a pure machine: whatever the order of the events, the accounts
//! balance. An event is one atomic step of one caller, and no thread is in sight.
#![tactic(auto)]

mod event;
mod fixed_laws;
mod head_laws;
mod laws;
mod level_step;
mod machine;
mod not_now;
mod row;
mod shape;
mod slot;
mod stage;
mod step;
mod told;

pub use event::Event;
pub use fixed_laws::{
    claim_without_a_charge_may_come_and_go, first_step_of_a_release_keeps_a_fixed_tree,
    first_step_of_a_request_keeps_a_fixed_tree, given_tree_is_lawful,
    held_claim_may_forget_its_steps, same_claims_are_as_lawful,
};
pub use head_laws::{
    child_of_the_first_claim_keeps_the_law, closing_on_the_first_claim_keeps_the_law,
    event_of_the_first_claim_keeps_the_law, stakes_are_in_the_root, use_less_keeps_the_law,
    use_more_keeps_the_law,
};
pub use laws::{
    each_event_keeps_a_fixed_tree, each_event_keeps_the_law, each_run_keeps_the_law,
    each_step_keeps_the_law, effects_are_those_in_phase, failed_request_went_past_a_limit,
    free_claims_do_not_matter, held_at_rest_is_held_of, held_covers_pending_subtractions,
    held_is_within_the_worst_case, held_request_went_past_no_limit,
    made_nodes_are_an_allocator_tree, numbers_stay_small, order_of_claims_does_not_matter,
    unused_node_holds_nothing,
};
pub use level_step::LevelStep;
pub use machine::Core;
pub use not_now::NotNow;
pub use row::Row;
pub use shape::Shape;
pub use step::Step;
pub use told::Told;
