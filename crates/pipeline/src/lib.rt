//! A query, run: its operators, batch by batch, over the tree of one thread; its answer, its report and its end.
#![tactic(auto)]

mod batch;
mod batches;
mod closing;
mod merging;
mod opening;
mod printing;
mod refused;
mod run;

pub use refused::QueryRefused;
pub use run::run_query;
