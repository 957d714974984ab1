//! Moving the charge for a chunk to another allocator.
ghost use Rattle.std.specs.Prelude.{◌≡◌, false, OnOk, is_some, string_bytes};
ghost use Rattle.script.specs.declared.line.Line.TheVariants as line;
ghost use Rattle.script.specs.Bound.{IsWithin};
ghost use Rattle.script.specs.Buffers.{buffer_of};
ghost use Rattle.script.specs.Trace.{transfer_line, transferred_after};
ghost use Rattle.mem_model.specs.DrawnNumbers.{DrawsNumbers};
ghost use Rattle.script.specs.Shown.{Prints, PrintsLine, HasNumbers};

use crate::answer::{
    write_empty_transfer, write_given_back, write_taken, write_transfer, write_unknown,
};
use crate::buffer::{Buffer, GivenRef};
use crate::buffers::Buffers;
use crate::trace::Trace;
use mem_num::{AllocId, NameText, Ref, SoloRefused};
use std::alloc::AllocError;

impl<'a> Trace<'a> {
    pub(crate) fn transfer(
        &mut self,
        name: &NameText<'a>,
        source: &NameText<'a>,
        at: &NameText,
        text: &mut String,
    ) -> Result<(), AllocError>
        requires numbers { HasNumbers self.old.tree.state 1 }
        ensures prints { OnOk result
            (PrintsLine self.old self.new (string_bytes text.old) (string_bytes text.new) (line.Transfer name.now source.now at.now)) }
        ensures draws { OnOk result (DrawsNumbers self.old.tree.state self.new.tree.state 1) }
    {
        if self.buffers.is_bound(name) {
            return write_taken(text, name);
        }
        let Some((buffer, given)) = self.buffers.source(source) else {
            return write_unknown(text, source);
        };
        match self.names.find(at.as_str()) {
            Some(id) => self.transfer_buffer(name, buffer, given, id, text),
            None => write_unknown(text, at),
        }
    }

    // Transfers the buffer that the source is bound to, for a name that is free.
    fn transfer_buffer(
        &mut self,
        name: &NameText<'a>,
        source: Buffer,
        given: GivenRef,
        at: AllocId,
        text: &mut String,
    ) -> Result<(), AllocError>
        requires numbers { HasNumbers self.old.tree.state 1 }
        requires free { is_some (buffer_of self.old.buffers.bound name.now) ≡ false }
        requires fits { IsWithin source }
        ensures prints { OnOk result (Prints self.old self.new (string_bytes text.old) (string_bytes text.new)
            (λ state. transfer_line state name.now source given at)) }
        ensures draws { OnOk result (DrawsNumbers self.old.tree.state self.new.tree.state 1) }
    {
        if given.reference.chunk == 0 {
            self.buffers.share(name, source)?;
            return write_empty_transfer(text, name);
        }
        if given.given_back {
            return write_given_back(text, given.reference);
        }
        let answer = self.tree.transfer(given.reference, at);
        bind(&mut self.buffers, name, source, answer)?;
        write_transfer(text, name, answer)
    }
}

// Binds the name of a reference that was given.
fn bind<'a>(
    buffers: &mut Buffers<'a>,
    name: &NameText<'a>,
    source: Buffer,
    answer: Result<(Ref, bool), SoloRefused>,
) -> Result<(), AllocError>
    requires free { is_some (buffer_of buffers.old.bound name.now) ≡ false }
    requires fits { IsWithin source }
    ensures { OnOk result (buffers.new ≡ transferred_after buffers.old name.now source answer) }
{
    match answer {
        Ok((reference, _)) => buffers.give(name, reference, source.start, source.len),
        Err(_) => Ok(()),
    }
}
