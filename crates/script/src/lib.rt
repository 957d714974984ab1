//! The script language: bytes are read as a script, a root's limit and sections of lines, and a script is run as a trace.
#![tactic(auto)]

mod answer;
mod buffer;
mod buffers;
mod count;
mod form;
mod laws;
mod line;
mod read;
mod reading;
mod refused;
mod run;
mod running;
mod script;
mod section;
mod text;
mod trace;
mod word;

pub use form::Form;
pub use laws::{references_of_a_trace_are_those_given, reports_of_a_trace_are_lawful};
pub use line::Line;
pub use read::{read_script, texts_have_one_reading};
pub use refused::ScriptRefused;
pub use run::run_trace;
pub use script::Script;
pub use section::Section;
