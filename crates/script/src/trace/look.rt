//! Closing an allocator, and what a trace shows of its tree.
ghost use Rattle.std.specs.Prelude.{◌≡◌, OnOk, string_bytes};
ghost use Rattle.script.specs.declared.line.Line.TheVariants as line;
ghost use Rattle.mem_model.specs.DrawnNumbers.{DrawsNumbers};
ghost use Rattle.script.specs.Shown.{PrintsLine};

use crate::answer::{write_close, write_headroom, write_unknown};
use crate::trace::Trace;
use leak_report::{report_text, tree_text};
use mem_num::NameText;
use std::alloc::{AllocError, Global};
use std::slice;

impl<'a> Trace<'a> {
    /// Closes the allocator that `at` names.
    pub(crate) fn close(&mut self, at: &NameText, text: &mut String) -> Result<(), AllocError>
        ensures prints { OnOk result
            (PrintsLine self.old self.new (string_bytes text.old) (string_bytes text.new) (line.Close at.now)) }
        ensures draws { OnOk result (DrawsNumbers self.old.tree.state self.new.tree.state 1) }
    {
        let Some(id) = self.names.find(at.as_str()) else {
            return write_unknown(text, at);
        };
        let answer = self.tree.close(id);
        write_close(text, at, id, answer)
    }

    /// Shows the headroom of the allocator that `at` names.
    pub(crate) fn headroom(&self, at: &NameText, text: &mut String) -> Result<(), AllocError>
        ensures { OnOk result
            (PrintsLine self.now self.now (string_bytes text.old) (string_bytes text.new) (line.Headroom at.now)) }
    {
        let Some(id) = self.names.find(at.as_str()) else {
            return write_unknown(text, at);
        };
        let answer = self.tree.headroom(id);
        write_headroom(text, at, answer)
    }

    /// Shows the tree.
    pub(crate) fn show(&self, alloc: Global, text: &mut String) -> Result<(), AllocError>
        ensures { OnOk result
            (PrintsLine self.now self.now (string_bytes text.old) (string_bytes text.new) line.Tree) }
    {
        let Ok(shown) = tree_text(alloc, &self.tree, slice::from_ref(&self.names)) else {
            return Err(AllocError);
        };
        text.push_str(&shown)
    }

    pub(crate) fn report(&self, alloc: Global, text: &mut String) -> Result<(), AllocError>
        ensures { OnOk result
            (PrintsLine self.now self.now (string_bytes text.old) (string_bytes text.new) line.Report) }
    {
        let Ok(shown) = report_text(alloc, &self.tree, slice::from_ref(&self.names)) else {
            return Err(AllocError);
        };
        text.push_str(&shown)
    }
}
