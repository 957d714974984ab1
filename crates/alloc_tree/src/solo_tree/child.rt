//! Making a child in a tree.
ghost use Rattle.std.specs.Prelude.{◌≡◌, ◌+◌, ◌-◌, ◌<◌, ◌≤◌, ◌^◌};
ghost use Rattle.mem_num.specs.declared.bounds.TheConstants.{MAX_LIMIT, MAX_RESERVATION, MOST_NUMBERS};
ghost use Rattle.mem_model.specs.Child.{child_result};
ghost use Rattle.mem_model.specs.MeasuredTree.{IsAfterCall};
ghost use Rattle.alloc_tree.specs.Counting.{count_after};

use crate::row::Row;
use crate::solo_tree::{SoloTree, one_more};
use mem_num::{AllocId, ChildRefused, Closed, MOST_ALLOCATORS};

impl SoloTree {
    /// Makes a child of an allocator, with a reservation, which is requested at the parent, and a limit, in bytes. After
    /// `BaseAllocator.newChildAllocator`. Takes no memory.
    pub fn child(
        &mut self,
        parent: AllocId,
        reservation: u64,
        limit: u64,
    ) -> Result<AllocId, ChildRefused>
        requires reservation { reservation ≤ MAX_RESERVATION }
        requires limit { limit ≤ MAX_LIMIT }
        requires numbers { self.old.state.next + 1 < MOST_NUMBERS }
        ensures answer { result ≡ (child_result self.old.state parent reservation limit).answer }
        ensures after { IsAfterCall self.old (child_result self.old.state parent reservation limit) self.new }

        // It is counted where it draws a number.
        ensures counted { self.new.calls ≡ count_after self.old.calls (self.new.state.next - self.old.state.next) }
    {
        if reservation > limit {
            return Err(ChildRefused::ReserveAboveLimit { reservation, limit });
        }
        if !self.is_open(parent) {
            return Err(ChildRefused::Closed(Closed {
                node: parent,
                uses: 0,
            }));
        }
        let number = AllocId(self.next);
        self.next += 1;
        self.calls = one_more(self.calls);
        if number.0 >= MOST_ALLOCATORS {
            return Err(ChildRefused::Nodes {
                next: number.0.into(),
            });
        }
        if let Err(full) = self.rows.request(parent, reservation) {
            return Err(ChildRefused::Full(full));
        }
        self.rows
            .put(number, Row::child(parent, reservation, limit));
        self.rows.add_use(parent);
        Ok(number)
    }
}
