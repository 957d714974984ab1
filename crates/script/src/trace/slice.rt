//! Naming a part of a buffer.
ghost use Rattle.std.specs.Prelude.{◌≡◌, ◌≤◌, false, OnOk, is_some, string_bytes};
ghost use Rattle.mem_num.specs.declared.bounds.TheConstants.{MAX_LIMIT};
ghost use Rattle.script.specs.declared.line.Line.TheVariants as line;
ghost use Rattle.script.specs.Bound.{IsWithin};
ghost use Rattle.script.specs.Buffers.{buffer_of};
ghost use Rattle.script.specs.Trace.{slice_line};
ghost use Rattle.mem_model.specs.DrawnNumbers.{DrawsNumbers};
ghost use Rattle.script.specs.Shown.{Prints, PrintsLine};

use crate::answer::{write_given_back, write_outside, write_slice, write_taken, write_unknown};
use crate::buffer::{Buffer, GivenRef};
use crate::trace::Trace;
use mem_num::NameText;
use std::alloc::AllocError;

impl<'a> Trace<'a> {
    pub(crate) fn slice(
        &mut self,
        name: &NameText<'a>,
        source: &NameText<'a>,
        start: u64,
        len: u64,
        text: &mut String,
    ) -> Result<(), AllocError>
        requires start { start ≤ MAX_LIMIT }
        requires len { len ≤ MAX_LIMIT }
        ensures prints { OnOk result
            (PrintsLine self.old self.new (string_bytes text.old) (string_bytes text.new) (line.Slice name.now source.now start len)) }
        ensures draws { OnOk result (DrawsNumbers self.old.tree.state self.new.tree.state 1) }
    {
        if self.buffers.is_bound(name) {
            return write_taken(text, name);
        }
        match self.buffers.source(source) {
            Some((buffer, given)) => self.slice_buffer(name, buffer, given, start, len, text),
            None => write_unknown(text, source),
        }
    }

    // Names a part of the buffer that the source is bound to. It shares the reference.
    fn slice_buffer(
        &mut self,
        name: &NameText<'a>,
        source: Buffer,
        given: GivenRef,
        start: u64,
        len: u64,
        text: &mut String,
    ) -> Result<(), AllocError>
        requires start { start ≤ MAX_LIMIT }
        requires len { len ≤ MAX_LIMIT }
        requires free { is_some (buffer_of self.old.buffers.bound name.now) ≡ false }
        requires fits { IsWithin source }
        ensures prints { OnOk result (Prints self.old self.new (string_bytes text.old) (string_bytes text.new)
            (λ state. slice_line state name.now source given start len)) }
        ensures draws { OnOk result (DrawsNumbers self.old.tree.state self.new.tree.state 1) }
    {
        if given.given_back {
            return write_given_back(text, given.reference);
        }
        if start + len > source.len {
            return write_outside(text, source.len);
        }
        let part = Buffer {
            place: source.place,
            start: source.start + start,
            len,
        };
        self.buffers.share(name, part)?;
        write_slice(text, name, part.start, len)
    }
}
