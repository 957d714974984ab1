//! Closing an allocator of a tree.
ghost use Rattle.std.specs.Prelude.{◌≡◌};
ghost use Rattle.mem_model.specs.Close.{close_result};
ghost use Rattle.mem_model.specs.MeasuredTree.{IsAfterCall};

use crate::row::Row;
use crate::solo_tree::SoloTree;
use mem_num::{AllocId, NotClosed};

impl SoloTree {
    /// Closes an allocator that nothing uses, and releases its reservation at its parent. After `BaseAllocator.close`, which
    /// throws where this refuses. Takes no memory.
    pub fn close(&mut self, at: AllocId) -> Result<(), NotClosed>
        ensures answer { result ≡ (close_result self.old.state at).answer }
        ensures after { IsAfterCall self.old (close_result self.old.state at) self.new }
        ensures uncounted { self.new.calls ≡ self.old.calls }
    {
        let Some(row) = self.rows.get_open(at) else {
            return Err(NotClosed::Closed { uses: 0 });
        };
        if row.uses > 0 {
            return Err(NotClosed::InUse { uses: row.uses });
        }
        self.rows.put(
            at,
            Row {
                closed: true,
                ..row
            },
        );
        if let Some(parent) = row.parent {
            self.rows.release(parent, row.reservation);
            self.rows.drop_use(parent);
        }
        Ok(())
    }
}
