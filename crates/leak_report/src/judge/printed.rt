//! What is read off the lines of a report.

use mem_model::{Ledger, Numbered, TreeNode};
use mem_num::AllocId;
use std::marker::Model;

/// A line of the tree: an allocator, so many levels deep.
#[derive(Debug, Drop)]
pub(crate) struct TreeLine {
    pub(crate) depth: usize,
    pub(crate) number: AllocId,
    pub(crate) name: Vec<u8>,
    pub(crate) reservation: u64,
    pub(crate) held: u64,
    pub(crate) peak: u64,
    pub(crate) limit: u64,
}

impl Model for TreeLine {
    ghost use Rattle.leak_report.specs.Report as spec;

    ghost Value = { spec.TreeLine };

    ghost view = { λ line. record { depth = line.depth; number = line.number; name = line.name.items; reservation = line.reservation; held = line.held; peak = line.peak; limit = line.limit } };
}

/// An open allocator: its number and name, whose child it is, and its numbers.
#[derive(Debug, Drop)]
pub(crate) struct PrintedAllocator {
    pub(crate) number: AllocId,
    pub(crate) parent: Option<AllocId>,
    pub(crate) name: Vec<u8>,
    pub(crate) reservation: u64,
    pub(crate) held: u64,
    pub(crate) peak: u64,
    pub(crate) limit: u64,
}

impl Model for PrintedAllocator {
    ghost use Rattle.leak_report.specs.Report as spec;

    ghost Value = { spec.PrintedAllocator };

    ghost view = { λ printed. record { number = printed.number; parent = printed.parent; name = printed.name.items; reservation = printed.reservation; held = printed.held; peak = printed.peak; limit = printed.limit } };
}

impl PrintedAllocator {
    ghost use Rattle.std.specs.Prelude.{◌≡◌, nat_lt};
    ghost use Rattle.leak_report.specs.ReadReport.{allocator_of_line};
    ghost use Rattle.leak_report.specs.LawfulReport.{printed_node};

    /// The allocator of a line, with its parent.
    pub(crate) fn of_line(line: TreeLine, parent: Option<AllocId>) -> PrintedAllocator
        ensures { result ≡ allocator_of_line line parent }
    {
        PrintedAllocator {
            number: line.number,
            parent,
            name: line.name,
            reservation: line.reservation,
            held: line.held,
            peak: line.peak,
            limit: line.limit,
        }
    }

    /// Its number.
    pub(crate) fn number(&self) -> AllocId
        ensures { result ≡ self.now.number }
    {
        self.number
    }

    /// Its name.
    pub(crate) fn name(&self) -> &[u8]
        ensures { result.now ≡ self.now.name }
    {
        &self.name
    }

    /// Whether it has a smaller number.
    pub(crate) fn is_before(&self, number: AllocId) -> bool
        ensures { result ≡ nat_lt self.now.number.0 number.0 }
    {
        self.number.0 < number.0
    }

    /// It as one of a tree: it is open.
    pub(crate) fn node(&self) -> TreeNode
        ensures { result ≡ printed_node self.now }
    {
        TreeNode {
            number: self.number,
            parent: self.parent,
            reservation: self.reservation,
            limit: self.limit,
            closed: false,
        }
    }
}

/// A live chunk: its number and size, who is charged for it, and who refers to it.
#[derive(Debug, Drop)]
pub(crate) struct PrintedChunk {
    pub(crate) number: u32,
    pub(crate) size: u64,
    pub(crate) owner: AllocId,
    pub(crate) ledgers: Vec<Ledger>,
}

impl Model for PrintedChunk {
    ghost use Rattle.mem_model.specs.Chunk as spec;

    ghost Value = { spec.Chunk };

    ghost view = { λ chunk. record { number = chunk.number; size = chunk.size; owner = chunk.owner; ledgers = chunk.ledgers.items } };
}

impl Numbered for PrintedChunk {
    ghost number_of = { λ chunk. chunk.number };

    fn number(&self) -> u32 {
        self.number
    }
}
