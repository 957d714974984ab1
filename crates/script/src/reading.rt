//! A script that is being read, line after line.
ghost use Rattle.std.specs.Prelude.{◌≡◌, [], true, false, IfOk};
ghost use Rattle.script.specs.Reading.{GoesOn, EndsHere, script_of};

use crate::count::{Count, TextLine};
use crate::form::Form;
use crate::line::Line;
use crate::script::Script;
use std::alloc::{AllocError, Global};
use std::marker::Model;

/// The lines that were read so far, seen as the list of them.
#[derive(Drop)]
pub(crate) struct Reading<'a> {
    lines: Vec<Line<'a>>,
    count: Count,
}

impl<'a> Model for Reading<'a> {
    ghost use Rattle.std.specs.Prelude.{List};
    ghost use Rattle.script.specs.declared.line.Line.{Line as AnyLine};
    ghost use Rattle.script.specs.Count.{Counts};

    ghost Value = { List AnyLine };

    ghost view = { λ reading. reading.lines.items };

    ghost invariant = { λ reading. Counts reading.lines.items reading.count };
}

impl<'a> Reading<'a> {
    pub fn new(alloc: Global) -> Reading<'a>
        ensures { result ≡ [] }
    {
        Reading {
            lines: Vec::new(alloc),
            count: Count::new(),
        }
    }

    /// Reads one more line of text, and answers whether it can stand there.
    pub fn take(&mut self, form: Form, text: &'a [u8]) -> Result<bool, AllocError>
        ensures goes_on { result ≡ Ok true → GoesOn form text.now self.old self.new }
        ensures ends_here { result ≡ Ok false → EndsHere form text.now self.old }
    {
        let mut count = self.count;
        match count.read(form, text) {
            TextLine::Skipped => Ok(true),
            TextLine::Says(line) => {
                self.lines.push(line)?;
                self.count = count;
                Ok(true)
            }
            TextLine::Unreadable => Ok(false),
        }
    }

    /// The script of the lines that were read.
    pub fn finish(self, alloc: Global) -> Result<Script<'a>, AllocError>
        ensures { IfOk result (λ script. script ≡ script_of self.entry) }
    {
        let Reading { lines, .. } = self;
        Script::new(alloc, lines)
    }
}
