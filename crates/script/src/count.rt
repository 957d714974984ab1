//! How many lines of a script were read.
ghost use Rattle.std.specs.Prelude.{◌≡◌, [], None, IfSome, List};
ghost use Rattle.script.specs.Count.{Counts, CountsOneMore, HasRead, IsBounded};
ghost use Rattle.script.specs.Reading.{MayFollow};
ghost use Rattle.script.specs.declared.line.Line.{Line as AnyLine};

use crate::form::Form;
use crate::line::{Line, line_in};
use crate::word::is_skipped;

const MAX_LINES: usize = 1_000_000;

const MAX_TREES: usize = 1_000;

const MAX_REPORTS: usize = 16;

/// How many lines a script has so far, and how many of each kind that has a bound of its own.
#[derive(Clone, Copy, Debug)]
pub(crate) struct Count {
    pub(crate) lines: usize,
    pub(crate) trees: usize,
    pub(crate) reports: usize,
}

/// What a line of text comes to.
#[derive(Debug, Drop)]
pub(crate) enum TextLine<'a> {
    /// It is skipped.
    Skipped,
    /// It says a line that may stand there.
    Says(Line<'a>),
    Unreadable,
}

impl Count {
    /// Before the first line.
    pub fn new() -> Count
        ensures { Counts [] result }
    {
        Count {
            lines: 0,
            trees: 0,
            reports: 0,
        }
    }

    /// Reads a line of text, and counts what it says. Takes no memory.
    pub fn read<'a>(&mut self, form: Form, text: &'a [u8]) -> TextLine<'a>
        ensures read { (said : List AnyLine) → Counts said self.old
            → HasRead form text.now said self.new result }
        ensures bounds { IsBounded result }
    {
        if is_skipped(text) {
            return TextLine::Skipped;
        }
        let Some(line) = line_in(text) else {
            return TextLine::Unreadable;
        };
        let Some(count) = self.with(form, &line) else {
            return TextLine::Unreadable;
        };
        *self = count;
        TextLine::Says(line)
    }

    // The count with a line more, if that may follow those that were counted.
    fn with(self, form: Form, line: &Line) -> Option<Count>
        ensures some { IfSome result (λ count. (said : List AnyLine) → Counts said self
            → CountsOneMore form said line.now count) }
        ensures none { result ≡ None → (said : List AnyLine) → Counts said self
            → MayFollow form said line.now → ⊥ }
    {
        if self.lines >= MAX_LINES {
            return None;
        }
        let more = Count {
            lines: self.lines + 1,
            ..self
        };
        match line {
            Line::Root { .. } if self.lines == 0 => Some(more),
            Line::Slice { .. } | Line::Headroom { .. } if matches!(form, Form::Trace) => Some(more),
            Line::Tree if matches!(form, Form::Trace) && self.trees < MAX_TREES => Some(Count {
                trees: self.trees + 1,
                ..more
            }),
            Line::Report if matches!(form, Form::Trace) && self.reports < MAX_REPORTS => {
                Some(Count {
                    reports: self.reports + 1,
                    ..more
                })
            }
            Line::Root { .. }
            | Line::Slice { .. }
            | Line::Headroom { .. }
            | Line::Tree
            | Line::Report => None,
            Line::Child { .. }
            | Line::Buffer { .. }
            | Line::Retain { .. }
            | Line::Transfer { .. }
            | Line::Release { .. }
            | Line::Close { .. } => Some(more),
        }
    }
}
