//! A trace that is run as it is read.
ghost use Rattle.std.specs.Prelude.{◌≡◌, ℕ, [], ◌∷◌, ◌++◌, true, false, List, IfOk, OnOk, OnErr};
ghost use Rattle.script.specs.Count.{CountsOneMore};
ghost use Rattle.script.specs.Grammar.{Says, HasBounds};
ghost use Rattle.script.specs.Reading.{MayFollow, EndsHere};
ghost use Rattle.script.specs.Running.{HasCome, HasRun};
ghost use Rattle.script.specs.declared.form.Form.TheVariants as form;
ghost use Rattle.script.specs.declared.line.Line.{Line as AnyLine};

use crate::count::{Count, TextLine};
use crate::form::Form;
use crate::line::Line;
use crate::trace::Trace;
use mem_num::MAX_LIMIT;
use std::alloc::{AllocError, Global};

/// A trace with the lines of its script that were run.
#[derive(Drop)]
pub(crate) struct Running<'a> {
    pub(crate) count: Count,
    pub(crate) trace: Trace<'a>,
    /// What the last line printed. It serves all lines.
    text: String,
}

impl<'a> Running<'a> {
    /// Before the first line.
    pub fn open(alloc: Global) -> Result<Running<'a>, AllocError>
        ensures { IfOk result (λ running. (before : List ℕ) → HasRun running [] before before) }
    {
        Ok(Running {
            count: Count::new(),
            trace: Trace::open(alloc, MAX_LIMIT)?,
            text: String::new(alloc),
        })
    }

    /// Reads a line of text, runs it and appends what it prints, and answers whether it can stand there.
    pub fn take(
        &mut self,
        alloc: Global,
        text: &'a [u8],
        out: &mut Vec<u8>,
    ) -> Result<bool, AllocError>
        requires { (said : List AnyLine) × (before : List ℕ) × HasRun self.old said before out.old.items }
        ensures goes_on { result ≡ Ok true → (done : List (List ℕ)) (said : List AnyLine) (before : List ℕ)
            → Says form.Trace done said → HasRun self.old said before out.old.items
            → (next : List AnyLine) × Says form.Trace (done ++ text.now ∷ []) next
            × HasRun self.new next before out.new.items }
        ensures ends_here { result ≡ Ok false → (said : List AnyLine) (before : List ℕ)
            → HasRun self.old said before out.old.items → EndsHere form.Trace text.now said }
        ensures unchanged { result ≡ Ok false → out.new ≡ out.old }
        ensures err { OnErr result (out.new.items ≡ out.old.items) }
    {
        match self.count.read(Form::Trace, text) {
            TextLine::Skipped => Ok(true),
            TextLine::Says(line) => {
                open_for(alloc, &mut self.trace, &line)?;
                self.text.clear();
                self.trace.run(alloc, &line, &mut self.text)?;
                out.extend_from_slice(self.text.as_bytes())?;
                Ok(true)
            }
            TextLine::Unreadable => Ok(false),
        }
    }
}

// A root line is the first, and opens the trace anew.
fn open_for<'a>(alloc: Global, trace: &mut Trace<'a>, line: &Line<'a>) -> Result<(), AllocError>
    requires { HasBounds line.now }
    ensures { OnOk result ((said : List AnyLine) → MayFollow form.Trace said line.now
        → HasCome trace.old said said → HasCome trace.new (said ++ line.now ∷ []) said) }
{
    if let Line::Root { limit } = line {
        *trace = Trace::open(alloc, *limit)?;
    }
    Ok(())
}
