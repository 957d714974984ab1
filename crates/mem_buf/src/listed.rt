//! The token of a listed memory.
ghost use Rattle.std.specs.Prelude.{◌≡◌, ◌≤◌, ◌↔◌, IsTrue};
ghost use Rattle.mem_buf.specs.Listed.{answer_at, pins_in};

use crate::listed_answer::ListedAnswer;
use mem_num::AllocId;
use std::alloc::Global;

/// A token with the answers to its calls, one a call, in order; every later call is done. A call that its arguments alone decide
/// takes no answer.
#[derive(Debug, Drop)]
pub struct Listed {
    pub answers: Vec<ListedAnswer>,
    /// How many of the answers were taken.
    pub taken: usize,
    /// What the token pins, once for each child that was made.
    pub pinned: Vec<AllocId>,
    /// The greatest number of an allocator so far.
    pub allocators: u32,
    /// The greatest number of a chunk so far.
    pub chunks: u32,
}

impl Listed {
    /// A token whose calls get these answers. The children that it makes have the numbers from 1 on, and so have the chunks.
    pub fn new(alloc: Global, answers: Vec<ListedAnswer>) -> Listed
        ensures answers { result.answers ≡ answers }
        ensures taken { result.taken ≡ 0 }
    {
        Listed {
            answers,
            taken: 0,
            pinned: Vec::new(alloc),
            allocators: 0,
            chunks: 0,
        }
    }

    /// The next answer.
    pub(crate) fn take(&mut self) -> ListedAnswer
        ensures next { result ≡ answer_at self.old.answers.items self.old.taken }
        ensures pinned { self.new.pinned ≡ self.old.pinned }
    {
        let Some(answer) = self.answers.get(self.taken) else {
            return ListedAnswer::Done(true);
        };
        self.taken = self.taken.saturating_add(1);
        *answer
    }

    /// Whether the token pins an allocator.
    pub(crate) fn has_pin(&self, at: AllocId) -> bool
        ensures value { IsTrue result ↔ 1 ≤ pins_in self.now.pinned.items at.0 }
    {
        self.pinned.iter().filter(|pin| pin.0 == at.0).count() > 0
    }
}
