//! A section of a script.
ghost use Rattle.std.specs.Prelude.{◌≡◌};

use crate::line::Line;
use std::marker::Model;

/// Lines of a script that run one after another, seen as the list of them.
#[derive(Debug, Drop)]
pub struct Section<'a> {
    lines: Vec<Line<'a>>,
}

impl<'a> Model for Section<'a> {
    ghost use Rattle.std.specs.Prelude.{List};
    ghost use Rattle.script.specs.declared.line.Line.{Line as AnyLine};

    ghost Value = { List AnyLine };

    ghost view = { λ section. section.lines.items };
}

impl<'a> Section<'a> {
    pub(crate) fn new(lines: Vec<Line<'a>>) -> Section<'a>
        ensures { result ≡ lines.entry.items }
    {
        Section { lines }
    }

    /// The lines, in order. It takes no memory.
    pub fn lines(&self) -> &[Line<'a>]
        ensures { result.now ≡ self.now }
    {
        &self.lines
    }
}
