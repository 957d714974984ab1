//! What a caller may still ask for.
ghost use Rattle.std.specs.Prelude.{◌≡◌, ◌+◌, ◌^◌};

/// How many bytes a table may be opened for. Twice as many, with all reservations, fit in 63 bits.
pub const MOST_BYTES: u64 = 2_305_843_009_213_693_952;

/// How many calls that draw a number a table may be opened for: a number less than there are, beside 0.
pub const MOST_TURNS: u64 = 4_294_967_294;

/// How many bytes and how many charges may still be asked for.
#[derive(Clone, Copy, Debug, PartialEq, Eq)]
pub struct Budget {
    pub bytes: u64,
    pub turns: u64,
}

/// What the bounds are, as powers of two.
pub fn budgets_are_bounded_by_powers_of_two()
    ensures bytes { MOST_BYTES ≡ 2 ^ 61 }
    ensures turns { MOST_TURNS + 2 ≡ 2 ^ 32 }
{}
