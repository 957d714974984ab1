//! Numbers and refusals of the accounts, and how a request is rounded: what every other crate speaks of.
#![tactic(auto)]

mod alloc_id;
mod bounds;
mod buffer_ref;
mod buffer_refused;
mod child_refused;
mod closed;
mod full;
mod name;
mod name_text;
mod no_memory;
mod node;
mod not_closed;
mod placed;
mod ref_refused;
mod released;
mod rounding;
mod solo_refused;
mod too_large;

pub use alloc_id::AllocId;
pub use bounds::{
    LARGEST, MAX_LIMIT, MAX_RESERVATION, MOST_ALLOCATORS, MOST_NUMBERS, bounds_are_powers_of_two,
};
pub use buffer_ref::Ref;
pub use buffer_refused::BufferRefused;
pub use child_refused::ChildRefused;
pub use closed::Closed;
pub use full::Full;
pub use name::{is_name, is_name_byte};
pub use name_text::NameText;
pub use no_memory::NoMemory;
pub use node::Node;
pub use not_closed::NotClosed;
pub use placed::Placed;
pub use ref_refused::RefRefused;
pub use released::Released;
pub use rounding::{Rounding, rounded};
pub use solo_refused::SoloRefused;
pub use too_large::TooLarge;
