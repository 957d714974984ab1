//! Lists in order of number.
ghost use Rattle.std.specs.Prelude.{◌≡◌, ℕ, ◌<◌, ◌↔◌, IsTrue, AllPairs};

/// What stands in a list by a number: an allocator, a ledger, a chunk.
pub trait Numbered {
    /// The number.
    ghost number_of: { Self → ℕ };

    /// The number. Takes no memory.
    fn number(&self) -> u32
        ensures { result ≡ number_of self.now };
}

/// Whether numbers rise, so that no two are the same. Takes no memory.
pub fn rise<T: Numbered>(items: &[T]) -> bool
    ensures { IsTrue result ↔ AllPairs (λ before after. T.number_of before < T.number_of after) items.now }
{
    // The least number that may come next.
    let mut least: u64 = 0;
    for item in items {
        let number = u64::from(item.number());
        if number < least {
            return false;
        }
        least = number + 1;
    }
    true
}
