//! The rows of a tree: the allocator of a number is the row at that place.
ghost use Rattle.std.specs.Prelude.{◌≡◌, ℕ, ◌+◌, ◌<◌, ◌≤◌, ◌^◌, List, IfOk, IsSome, Some, length, slice_set};
ghost use Rattle.mem_model.specs.declared.charge.Charge.{Charge};
ghost use Rattle.mem_model.specs.Balance.{Balances, ExceedsByAmount, raised, lowered};
ghost use Rattle.mem_model.specs.TreeNode.{IsAllocatorTree};
ghost use Rattle.alloc_tree.specs.Placed.{opened_rows};
ghost use Rattle.alloc_tree.specs.Rows.{nodes_in, held_by, peaks_in, uses_in, row_at, if_open, HoldCharges, IsOpenAt, ChangesUses};
ghost use Rattle.alloc_tree.specs.Walk.{KeepsNodes, AnswersRequest, MovesAmount, MovesCharge};

use crate::row::Row;
use crate::{uses, walk};
use mem_num::{AllocId, Full, MOST_ALLOCATORS};
use std::alloc::{AllocError, Global};
use std::marker::Model;

/// A place for each number that an allocator may have, seen as the list of them.
#[derive(Drop)]
pub(crate) struct Rows {
    rows: Vec<Option<Row>>,
}

impl Model for Rows {
    ghost use Rattle.std.specs.Prelude.{◌≡◌, List, Option, length};
    ghost use Rattle.alloc_tree.specs.declared.row.Row.{Row};

    ghost Value = { List (Option Row) };

    ghost view = { λ rows. rows.rows.items };
}

impl Rows {
    /// The rows of a tree with its root alone.
    pub fn opened(alloc: Global, limit: u64) -> Result<Rows, AllocError>
        ensures { IfOk result (λ rows. rows ≡ opened_rows limit) }
    {
        let mut rows = vec![in alloc; None; MOST_ALLOCATORS as usize]?;
        rows[0] = Some(Row::root(limit));
        Ok(Rows { rows })
    }

    /// The row of an allocator, if it was made.
    pub fn get(&self, at: AllocId) -> Option<Row>
        ensures { result ≡ row_at self.now at.0 }
    {
        match self.rows.get(at.0 as usize) {
            Some(row) => *row,
            None => None,
        }
    }

    /// The row of an allocator, if it was made and isn't closed.
    pub fn get_open(&self, at: AllocId) -> Option<Row>
        ensures { result ≡ if_open (row_at self.now at.0) }
    {
        let row = self.get(at)?;
        if row.closed { None } else { Some(row) }
    }

    /// Puts a row at the place of its number.
    pub fn put(&mut self, at: AllocId, row: Row)
        requires { at.0 < length self.old }
        ensures { self.new ≡ slice_set self.old at.0 (Some row) }
    {
        self.rows[at.0 as usize] = Some(row);
    }

    /// Requests a charge at an allocator, and undoes it where it is refused.
    pub fn request(&mut self, at: AllocId, amount: u64) -> Result<(), Full>
        requires tree { IsAllocatorTree (nodes_in self.old) }
        requires open { IsOpenAt self.old at.0 }
        requires fits { (n : ℕ) → held_by self.old n + amount < 2 ^ 64 }
        requires balanced { (charges : List Charge) × HoldCharges self.old charges }
        ensures kept { KeepsNodes self.old self.new }
        ensures answers { (charges : List Charge) → HoldCharges self.old charges
            → AnswersRequest charges (record { at = at; amount = amount }) self.old self.new result }
    {
        walk::request(&mut self.rows, at, amount)
    }

    /// Takes an amount back at an allocator, and above it what was beyond the reservations below.
    pub fn release(&mut self, at: AllocId, amount: u64)
        requires tree { IsAllocatorTree (nodes_in self.old) }
        requires open { IsOpenAt self.old at.0 }
        requires covered { (charges : List Charge) × ExceedsByAmount (nodes_in self.old) charges (held_by self.old) (Some at) amount }
        ensures kept { KeepsNodes self.old self.new }
        ensures peaks { peaks_in self.new ≡ peaks_in self.old }
        ensures released { (charges : List Charge) → ExceedsByAmount (nodes_in self.old) charges (held_by self.old) (Some at) amount
            → Balances (nodes_in self.old) charges (held_by self.new) }
    {
        walk::lower(&mut self.rows, at, amount);
    }

    /// Moves an amount from an allocator to another one, onto which it is forced first. Answers whether every level was within
    /// its limit then.
    pub fn move_charge(&mut self, from: AllocId, to: AllocId, amount: u64) -> bool
        requires tree { IsAllocatorTree (nodes_in self.old) }
        requires from { IsOpenAt self.old from.0 }
        requires to { IsOpenAt self.old to.0 }
        requires fits { (n : ℕ) → held_by self.old n + amount < 2 ^ 64 }
        requires covered { (before : List Charge) × (after : List Charge) × HoldCharges self.old before
            × MovesAmount before after from to amount }
        ensures kept { KeepsNodes self.old self.new }
        ensures moved { (before after : List Charge) → HoldCharges self.old before
            → MovesAmount before after from to amount
            → MovesCharge before after (record { at = to; amount = amount }) self.old self.new result }
    {
        walk::move_charge(&mut self.rows, from, to, amount)
    }

    /// Counts one use more of an allocator.
    pub fn add_use(&mut self, at: AllocId)
        requires made { IsSome (row_at self.old at.0) }
        requires fits { uses_in self.old at.0 + 1 < 2 ^ 64 }
        ensures uses { ChangesUses self.old self.new (raised (uses_in self.old) at.0 1) }
    {
        uses::add_use(&mut self.rows, at);
    }

    /// Counts one use less of an allocator.
    pub fn drop_use(&mut self, at: AllocId)
        requires made { IsSome (row_at self.old at.0) }
        requires some { 1 ≤ uses_in self.old at.0 }
        ensures uses { ChangesUses self.old self.new (lowered (uses_in self.old) at.0 1) }
    {
        uses::drop_use(&mut self.rows, at);
    }
}
