//! The bounds of a tree of allocators and of what it is asked for. They are this project's own, but for the greatest limit,
//! which is that of a signed number of 64 bits in Arrow Java.
ghost use Rattle.std.specs.Prelude.{◌≡◌, ◌+◌, ◌^◌};

/// How many allocators a tree may have in its life, the root included; their numbers are below it. A tree takes memory for all of
/// them when it opens.
pub const MOST_ALLOCATORS: u32 = 64;

/// The largest size of a buffer, in bytes.
pub const LARGEST: u64 = 1_073_741_824;

/// The largest reservation, in bytes.
pub const MAX_RESERVATION: u64 = 1_099_511_627_776;

/// The greatest limit of an allocator, in bytes.
pub const MAX_LIMIT: u64 = 9_223_372_036_854_775_807;

/// How many numbers of chunks there are, from 0 on, and of allocators; a chunk has fewer references than that, too.
pub const MOST_NUMBERS: u64 = 4_294_967_296;

/// What the bounds are, as the powers of two that the rules have.
pub fn bounds_are_powers_of_two()
    ensures allocators { MOST_ALLOCATORS ≡ 2 ^ 6 }
    ensures sizes { LARGEST ≡ 2 ^ 30 }
    ensures reservations { MAX_RESERVATION ≡ 2 ^ 40 }
    ensures limits { MAX_LIMIT + 1 ≡ 2 ^ 63 }
    ensures numbers { MOST_NUMBERS ≡ 2 ^ 32 }
{}
