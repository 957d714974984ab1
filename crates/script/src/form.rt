//! The two forms of a script.

/// What a script is read for. Some lines stand in one form only.
#[derive(Clone, Copy, Debug)]
pub enum Form {
    /// A script that one thread runs.
    Trace,
    /// A script that threads run.
    Drive,
}
