//! What a report says of a tree of allocators: the text of its open allocators, each below its parent.
#![tactic(auto)]

mod judge;
mod laws;
mod report;
mod text;

pub use judge::is_lawful_report;
pub use laws::{
    lawful_report_is_read_back, report_of_a_lawful_tree_is_lawful, text_below_goes_child_by_child,
    text_determines_its_report,
};
pub use report::report_text;
pub use text::tree_text;
