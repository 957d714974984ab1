//! How many bytes a request is charged.
ghost use Rattle.std.specs.Prelude.{◌≡◌, ◌≤◌, ◌↔◌, IsTrue, OkIff, IfOk, IfErr};
ghost use Rattle.mem_num.specs.Rounded.{rounded_size, IsPolicy, IsRounded};

use crate::bounds::LARGEST;
use crate::too_large::TooLarge;

/// A rounding policy, after Arrow Java's `RoundingPolicy`.
#[derive(Clone, Copy, Debug, PartialEq, Eq)]
pub enum Rounding {
    /// The next power of two, from 2 on, for a request below the chunk size of 16,777,216 bytes; a larger request stays as
    /// it is. After `DefaultRoundingPolicy`.
    Power,
    /// The next multiple of a segment size. After `SegmentRoundingPolicy`.
    Segment(u64),
}

impl Rounding {
    /// Whether requests can be rounded by it: a segment is a power of two from 1,024 to 1,073,741,824 bytes.
    pub fn is_policy(self) -> bool
        ensures { IsTrue result ↔ IsPolicy self }
    {
        match self {
            Rounding::Power => true,
            Rounding::Segment(segment) => is_segment(segment),
        }
    }
}

fn is_segment(size: u64) -> bool
    ensures { IsTrue result ↔ IsPolicy (Rounding.Segment size) }
{
    if size < 1_024 || size > LARGEST {
        return false;
    }
    // Not `is_power_of_two`, whose contract counts bits where the policy speaks of powers.
    size.next_power_of_two() == size
}

/// The least request, in bytes, that the powers of two leave as it is.
const CHUNK: u64 = 16_777_216;

/// The size, in bytes, that a request for `request` bytes is charged: 0 for none, and never less than the request. Takes
/// no memory.
#[tactic(auto, using(crate::proofs::RoundedLemmas::rounded_rule, crate::proofs::RoundedLemmas::rounded_lower))]
pub fn rounded(policy: Rounding, request: u64) -> Result<u64, TooLarge>
    requires { IsPolicy policy }
    ensures size { OkIff result (rounded_size policy request ≤ LARGEST) (rounded_size policy request) }
    ensures refused { IfErr result (λ refused. refused.request ≡ request) }
    ensures rule { IfOk result (IsRounded policy request) }
{
    if request > LARGEST {
        return Err(TooLarge { request });
    }
    let size = match policy {
        Rounding::Power => power(request),
        Rounding::Segment(segment) => multiple(segment, request),
    };
    if size > LARGEST {
        return Err(TooLarge { request });
    }
    Ok(size)
}

fn power(request: u64) -> u64
    requires { request ≤ LARGEST }
    ensures { result ≡ rounded_size Rounding.Power request }
{
    if request == 0 {
        return 0;
    }
    if request >= CHUNK {
        return request;
    }
    request.max(2).next_power_of_two()
}

fn multiple(segment: u64, request: u64) -> u64
    requires segment { IsPolicy (Rounding.Segment segment) }
    requires small { request ≤ LARGEST }
    ensures { result ≡ rounded_size (Rounding.Segment segment) request }
{
    request.next_multiple_of(segment)
}

#[cfg(test)]
mod tests {
    use super::*;

    #[test]
    fn a_request_is_charged_its_rounded_size(rt: HostRuntime) {
        for (request, size) in [
            (0, 0),
            (1, 2),
            (2, 2),
            (3, 4),
            (1_000, 1_024),
            (16_777_215, 16_777_216),
            (16_777_216, 16_777_216),
            (16_777_217, 16_777_217),
            (1_073_741_824, 1_073_741_824),
        ] {
            assert_eq!(rt; rounded(Rounding::Power, request), Ok(size));
        }
        let segments = Rounding::Segment(1_024);
        assert!(rt; segments.is_policy());
        for (request, size) in [(0, 0), (1, 1_024), (1_024, 1_024), (1_025, 2_048)] {
            assert_eq!(rt; rounded(segments, request), Ok(size));
        }
    }

    #[test]
    fn a_size_past_the_largest_is_refused(rt: HostRuntime) {
        let request = 1_073_741_825;
        let refused = Err(TooLarge { request });
        let segments = Rounding::Segment(1_048_576);
        assert!(rt; segments.is_policy());
        assert_eq!(rt; rounded(Rounding::Power, request), refused);
        assert_eq!(rt; rounded(segments, request), refused);
    }

    #[test]
    fn a_segment_is_a_power_of_two_from_1024_on(rt: HostRuntime) {
        for (segment, is_policy) in [
            (512, false),
            (1_024, true),
            (1_536, false),
            (1_073_741_824, true),
            (2_147_483_648, false),
        ] {
            assert_eq!(rt; Rounding::Segment(segment).is_policy(), is_policy);
        }
    }
}
