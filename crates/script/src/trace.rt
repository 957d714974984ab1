//! Running a trace: one line after another, on a tree of one thread.
ghost use Rattle.std.specs.Prelude.{◌≡◌, OnOk, IfOk, string_bytes};
ghost use Rattle.mem_num.specs.declared.bounds.TheConstants.{MAX_LIMIT};

mod child;
mod grant;
mod look;
mod release;
mod retain;
mod slice;
mod transfer;

use crate::buffers::Buffers;
use crate::line::Line;
use alloc_tree::{Names, SoloTree};
use std::alloc::{AllocError, Global};

/// What a trace has come to: its tree, and the names of its allocators and of its buffers.
#[derive(Drop)]
pub(crate) struct Trace<'a> {
    pub(crate) tree: SoloTree,
    pub(crate) names: Names,
    pub(crate) buffers: Buffers<'a>,
}

impl<'a> Trace<'a> {
    ghost use Rattle.std.specs.Prelude.{◌<◌, ◌≤◌, ◌^◌};
    ghost use Rattle.script.specs.Grammar.{HasBounds};
    ghost use Rattle.script.specs.Trace.{opened_trace};
    ghost use Rattle.mem_model.specs.DrawnNumbers.{DrawsNumbers};
    ghost use Rattle.script.specs.Shown.{IsAt, PrintsLine, HasNumbers};

    /// A trace before its first line.
    pub(crate) fn open(alloc: Global, limit: u64) -> Result<Trace<'a>, AllocError>
        requires limit { limit ≤ MAX_LIMIT }
        ensures opened { IfOk result (λ trace. IsAt trace (opened_trace limit)) }
    {
        let Ok(tree) = SoloTree::open(alloc, limit) else {
            return Err(AllocError);
        };
        Ok(Trace {
            tree,
            names: Names::new(alloc),
            buffers: Buffers::new(alloc),
        })
    }

    /// Runs a line, and writes what it prints.
    pub(crate) fn run(
        &mut self,
        alloc: Global,
        line: &Line<'a>,
        text: &mut String,
    ) -> Result<(), AllocError>
        requires bounds { HasBounds line.now }
        requires numbers { HasNumbers self.old.tree.state 1 }
        ensures prints { OnOk result
            (PrintsLine self.old self.new (string_bytes text.old) (string_bytes text.new) line.now) }
        ensures draws { OnOk result (DrawsNumbers self.old.tree.state self.new.tree.state 1) }
    {
        match line {
            Line::Root { .. } => Ok(()),
            Line::Child {
                name,
                parent,
                reservation,
                limit,
            } => self.child(name, parent, *reservation, *limit, text),
            Line::Buffer { name, at, size } => self.buffer(name, at, *size, text),
            Line::Retain { name, source, at } => self.retain(name, source, at, text),
            Line::Transfer { name, source, at } => self.transfer(name, source, at, text),
            Line::Slice {
                name,
                source,
                start,
                length,
            } => self.slice(name, source, *start, *length, text),
            Line::Release { name } => self.release(name, text),
            Line::Close { at } => self.close(at, text),
            Line::Headroom { at } => self.headroom(at, text),
            Line::Tree => self.show(alloc, text),
            Line::Report => self.report(alloc, text),
        }
    }
}
