//! Asking for a buffer.
ghost use Rattle.std.specs.Prelude.{◌≡◌, ◌<◌, ◌^◌, false, IfOk, OnOk, is_some, string_bytes};
ghost use Rattle.script.specs.declared.line.Line.TheVariants as line;
ghost use Rattle.script.specs.Buffers.{buffer_of};
ghost use Rattle.script.specs.Trace.{buffers_after};
ghost use Rattle.mem_model.specs.DrawnNumbers.{DrawsNumbers};
ghost use Rattle.script.specs.Shown.{PrintsLine, HasNumbers};

use crate::answer::{write_buffer, write_taken, write_unknown};
use crate::buffers::Buffers;
use crate::trace::Trace;
use mem_num::{BufferRefused, NameText, Ref};
use std::alloc::AllocError;

impl<'a> Trace<'a> {
    /// Asks for a buffer at the allocator that `at` names.
    pub(crate) fn buffer(
        &mut self,
        name: &NameText<'a>,
        at: &NameText,
        size: u64,
        text: &mut String,
    ) -> Result<(), AllocError>
        requires numbers { HasNumbers self.old.tree.state 1 }
        ensures prints { OnOk result
            (PrintsLine self.old self.new (string_bytes text.old) (string_bytes text.new)
            (line.Buffer name.now at.now size)) }
        ensures draws { OnOk result (DrawsNumbers self.old.tree.state self.new.tree.state 1) }
    {
        if self.buffers.is_bound(name) {
            return write_taken(text, name);
        }
        let Some(id) = self.names.find(at.as_str()) else {
            return write_unknown(text, at);
        };
        let answer = self.tree.grant(id, size);
        bind(&mut self.buffers, name, answer)?;
        write_buffer(text, name, answer)
    }
}

// Binds the name of a buffer that was given.
fn bind<'a>(
    buffers: &mut Buffers<'a>,
    name: &NameText<'a>,
    answer: Result<Ref, BufferRefused>,
) -> Result<(), AllocError>
    requires free { is_some (buffer_of buffers.old.bound name.now) ≡ false }
    requires small { IfOk answer (λ reference. reference.size < 2 ^ 63) }
    ensures { OnOk result (buffers.new ≡ buffers_after buffers.old name.now answer) }
{
    match answer {
        Ok(reference) => buffers.give(name, reference, 0, reference.size),
        Err(_) => Ok(()),
    }
}
