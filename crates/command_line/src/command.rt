//! The commands.

/// A command, with the words for its files as the command line has them.
#[derive(Clone, Copy, Debug, PartialEq, Eq)]
pub enum Command<'a> {
    /// `trace FILE`.
    Trace {
        file: &'a str,
    },
    /// `query PLAN DATA`, with `--workers N` or one worker.
    Query {
        plan: &'a str,
        table: &'a str,
        workers: u32,
    },
}
