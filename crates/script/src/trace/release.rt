//! Giving a buffer back.
ghost use Rattle.std.specs.Prelude.{◌≡◌, ◌<◌, OnOk, length, string_bytes};
ghost use Rattle.script.specs.declared.line.Line.TheVariants as line;
ghost use Rattle.script.specs.Trace.{release_line};
ghost use Rattle.mem_model.specs.DrawnNumbers.{DrawsNumbers};
ghost use Rattle.script.specs.Shown.{Prints, PrintsLine};

use crate::answer::{write_empty, write_given_back, write_release, write_unknown};
use crate::buffer::{Buffer, GivenRef};
use crate::trace::Trace;
use mem_num::NameText;
use std::alloc::AllocError;

impl<'a> Trace<'a> {
    pub(crate) fn release(
        &mut self,
        name: &NameText<'a>,
        text: &mut String,
    ) -> Result<(), AllocError>
        ensures prints { OnOk result
            (PrintsLine self.old self.new (string_bytes text.old) (string_bytes text.new) (line.Release name.now)) }
        ensures draws { OnOk result (DrawsNumbers self.old.tree.state self.new.tree.state 1) }
    {
        match self.buffers.source(name) {
            Some((buffer, given)) => self.release_buffer(name, buffer, given, text),
            None => write_unknown(text, name),
        }
    }

    // Gives back the reference of the buffer that the name is bound to. Whatever the tree answers, it was given back then.
    fn release_buffer(
        &mut self,
        name: &NameText<'a>,
        source: Buffer,
        given: GivenRef,
        text: &mut String,
    ) -> Result<(), AllocError>
        requires within { source.place < length self.old.buffers.given }
        ensures prints { OnOk result (Prints self.old self.new (string_bytes text.old) (string_bytes text.new)
            (λ state. release_line state name.now source given)) }
        ensures draws { OnOk result (DrawsNumbers self.old.tree.state self.new.tree.state 1) }
    {
        if given.reference.chunk == 0 {
            return write_empty(text, "release", name);
        }
        if given.given_back {
            return write_given_back(text, given.reference);
        }
        let answer = self.tree.release(given.reference);
        self.buffers.give_back(source.place, given);
        write_release(text, name, answer)
    }
}
