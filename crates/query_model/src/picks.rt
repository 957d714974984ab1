//! Picked columns.
ghost use Rattle.std.specs.Prelude.{◌≡◌};

use std::marker::Model;

/// Columns by their numbers, from 0 on, seen as a list.
#[derive(Debug, Drop)]
pub struct Picks {
    picks: Vec<u32>,
}

impl Model for Picks {
    ghost use Rattle.std.specs.Prelude.{List, ℕ};

    ghost Value = { List ℕ };

    ghost view = { λ a. a.picks.items };
}

impl Picks {
    /// The picks of a vector. Takes no memory.
    pub fn new(picks: Vec<u32>) -> Picks
        ensures { result ≡ picks.items }
    {
        Picks { picks }
    }

    /// The picks as a slice. Takes no memory.
    pub fn as_slice(&self) -> &[u32]
        ensures { result.now ≡ self.now }
    {
        self.picks.as_slice()
    }
}
