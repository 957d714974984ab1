//! Where a running claim stands.

/// The phase of a running claim, whose steps lie beside it.
#[derive(Clone, Copy, Debug, PartialEq, Eq)]
pub enum Stage {
    Free,
    In,
    Up {
        size: u64,
        next: u32,
        pending: u64,
        forced: bool,
    },
    Held {
        size: u64,
        forced: bool,
    },
    Failed {
        size: u64,
        forced: bool,
    },
    Down {
        size: u64,
        next: u32,
        pending: u64,
    },
    Bounced,
}
