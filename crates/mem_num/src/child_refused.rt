//! Why no child was made.
ghost use Rattle.std.specs.Prelude.{Some};

use crate::closed::Closed;
use crate::full::Full;
use std::fmt;

/// Why an allocator made no child, the first cause that stands. After Arrow Java's `BufferAllocator.newChildAllocator`.
#[derive(Clone, Copy, Debug, PartialEq, Eq)]
pub enum ChildRefused {
    /// The child would reserve more bytes than it may hold.
    ReserveAboveLimit { reservation: u64, limit: u64 },
    Closed(Closed),
    /// The number that the child drew is past the last one that an allocator may have.
    Nodes { next: u64 },
    /// The parent, or an allocator above it, has no room for the reservation.
    Full(Full),
}

/// As `above 10 5`, `closed #2`, `nodes 64`, or the text of `Full`.
impl fmt::Display for ChildRefused {
    ghost use Rattle.mem_num.specs.Text.{child_refused_text};

    ghost output = { λ refused. Some (child_refused_text refused) };

    fn fmt<W: fmt::Write>(&self, f: &mut fmt::Formatter<W>) -> fmt::Result {
        match *self {
            ChildRefused::ReserveAboveLimit { reservation, limit } => {
                write!(f, "above {reservation} {limit}")
            }
            ChildRefused::Closed(closed) => write!(f, "{closed}"),
            ChildRefused::Nodes { next } => write!(f, "nodes {next}"),
            ChildRefused::Full(full) => write!(f, "{full}"),
        }
    }
}

#[cfg(test)]
mod tests {
    use super::*;
    use crate::alloc_id::AllocId;
    use std::test::Fail;

    #[test]
    fn a_refused_child_is_printed_by_its_cause(rt: HostRuntime) -> Result<(), Fail> {
        let closed = Closed {
            node: AllocId(2),
            uses: 0,
        };
        let full = Full {
            node: AllocId(0),
            held: 0,
            amount: 2_000,
            limit: 1_000,
            local: true,
        };
        for (refused, text) in [
            (
                ChildRefused::ReserveAboveLimit {
                    reservation: 10,
                    limit: 5,
                },
                "above 10 5",
            ),
            (ChildRefused::Closed(closed), "closed #2"),
            (ChildRefused::Nodes { next: 64 }, "nodes 64"),
            (
                ChildRefused::Full(full),
                "full #0 held 0 amount 2000 limit 1000 local",
            ),
        ] {
            let printed = format!(in rt.alloc(); "{refused}")?;
            assert_eq!(rt; printed.as_str(), text);
        }
        Ok(())
    }
}
