//! An event that can't be taken.

/// The event is out of phase, or its claim or its node isn't there. Nothing was changed.
#[derive(Clone, Copy, Debug, PartialEq, Eq)]
pub struct NotNow;
