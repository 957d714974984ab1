//! How much more an allocator of a tree could hold.
ghost use Rattle.std.specs.Prelude.{◌≡◌, ◌<◌, ◌^◌, pos, negsuc, ◌+ℤ◌, ◌-ℤ◌, ◌≤ℤ◌};
ghost use Rattle.std.specs.Int.{int_min};
ghost use Rattle.mem_model.specs.Headroom.{headroom_answer, over_limit_answer, headroom_of, is_over_limit};

use crate::row::Row;
use crate::solo_tree::SoloTree;
use mem_num::{AllocId, Closed};

// What a limit leaves free, less than nothing where more is held.
fn free_in(row: Row) -> i128
    ensures { result ≡ pos row.limit -ℤ pos row.held }
{
    i128::from(row.limit) - i128::from(row.held)
}

// The lesser of what a limit leaves free and of what those above it leave beside what is reserved and not used.
fn least(free: i128, above: i128, unused: u64) -> i128
    requires { above ≤ℤ pos (2 ^ 64) }
    ensures { result ≡ int_min free (above +ℤ pos unused) }
{
    free.min(above + i128::from(unused))
}

impl SoloTree {
    /// How many bytes more an allocator could be given now, by its limit and by those above it; less than nothing only where it or
    /// one above it holds more than its own limit. After `BaseAllocator.getHeadroom`. Takes no memory.
    #[tactic(auto, unfolding(mem_model::specs::Headroom::headroom_answer))]
    pub fn headroom(&self, at: AllocId) -> Result<i128, Closed>
        ensures { result ≡ headroom_answer self.now.state at }
    {
        if !self.is_open(at) {
            return Err(Closed { node: at, uses: 0 });
        }
        Ok(self.headroom_at(at))
    }

    // By the limit of an allocator, and by what those above it leave beside what it reserved and doesn't use.
    fn headroom_at(&self, at: AllocId) -> i128
        ensures value { result ≡ headroom_of self.now.state at.0 }
        ensures least { negsuc (2 ^ 64) ≤ℤ result }
        ensures most { result ≤ℤ pos (2 ^ 64) }
    {
        let Some(row) = self.rows.get(at) else {
            return 0;
        };
        let free = free_in(row);
        let Some(parent) = row.parent else {
            return free;
        };
        let unused = row.reservation.saturating_sub(row.held);
        least(free, self.headroom_at(parent), unused)
    }

    /// Whether an allocator or one above it holds more than its limit. After `BaseAllocator.isOverLimit`. Takes no memory.
    #[tactic(auto, unfolding(mem_model::specs::Headroom::over_limit_answer))]
    pub fn over_limit(&self, at: AllocId) -> Result<bool, Closed>
        ensures { result ≡ over_limit_answer self.now.state at }
    {
        if !self.is_open(at) {
            return Err(Closed { node: at, uses: 0 });
        }
        Ok(self.is_over(at))
    }

    fn is_over(&self, at: AllocId) -> bool
        ensures { result ≡ is_over_limit self.now.state at.0 }
    {
        let Some(row) = self.rows.get(at) else {
            return false;
        };
        let is_past = row.held > row.limit;
        let Some(parent) = row.parent else {
            return is_past;
        };
        is_past || self.is_over(parent)
    }
}
