//! Making a child.
ghost use Rattle.std.specs.Prelude.{◌≡◌, ◌<◌, ◌≤◌, ◌^◌, OnOk, string_bytes};
ghost use Rattle.mem_num.specs.declared.bounds.TheConstants.{MAX_LIMIT, MAX_RESERVATION};
ghost use Rattle.script.specs.declared.line.Line.TheVariants as line;
ghost use Rattle.script.specs.Trace.{names_after};
ghost use Rattle.mem_model.specs.DrawnNumbers.{DrawsNumbers};
ghost use Rattle.script.specs.Shown.{PrintsLine, HasNumbers};

use crate::answer::{write_child, write_taken, write_unknown};
use crate::trace::Trace;
use alloc_tree::Names;
use mem_num::{AllocId, ChildRefused, NameText};
use std::alloc::AllocError;

impl<'a> Trace<'a> {
    /// Makes a child below the allocator that `parent` names. Takes memory for the name alone.
    pub(crate) fn child(
        &mut self,
        name: &NameText,
        parent: &NameText,
        reservation: u64,
        limit: u64,
        text: &mut String,
    ) -> Result<(), AllocError>
        requires reservation { reservation ≤ MAX_RESERVATION }
        requires limit { limit ≤ MAX_LIMIT }
        requires numbers { HasNumbers self.old.tree.state 1 }
        ensures prints { OnOk result
            (PrintsLine self.old self.new (string_bytes text.old) (string_bytes text.new)
            (line.Child name.now parent.now reservation limit)) }
        ensures draws { OnOk result (DrawsNumbers self.old.tree.state self.new.tree.state 1) }
    {
        if self.names.find(name.as_str()).is_some() {
            return write_taken(text, name);
        }
        let Some(at) = self.names.find(parent.as_str()) else {
            return write_unknown(text, parent);
        };
        let answer = self.tree.child(at, reservation, limit);
        bind(&mut self.names, name, answer)?;
        write_child(text, name, answer)
    }
}

// Binds the name of a child that was made. It is a name, and free, so that only memory could be wanting.
fn bind(
    names: &mut Names,
    name: &NameText,
    answer: Result<AllocId, ChildRefused>,
) -> Result<(), AllocError>
    ensures { OnOk result (names.new.bindings ≡ names_after names.old.bindings name.now answer) }
{
    let Ok(number) = answer else {
        return Ok(());
    };
    let Ok(ready) = names.ready_name(name) else {
        return Err(AllocError);
    };
    names.bind(ready, number);
    Ok(())
}
