//! A script that was read.
ghost use Rattle.std.specs.Prelude.{◌≡◌, IfOk};
ghost use Rattle.script.specs.Grammar.{limit_of};
ghost use Rattle.script.specs.Reading.{script_of};

use crate::line::Line;
use crate::section::Section;
use mem_num::MAX_LIMIT;
use std::alloc::{AllocError, Global};
use std::marker::Model;

/// A script, seen as the root's limit and the list of its sections. Its names stand in the bytes that it was read from.
#[derive(Debug, Drop)]
pub struct Script<'a> {
    limit: u64,
    sections: Vec<Section<'a>>,
}

impl<'a> Model for Script<'a> {
    ghost use Rattle.script.specs.Grammar.{ScriptParts};

    ghost Value = { ScriptParts };

    ghost view = { λ script. record { limit = script.limit; sections = script.sections.items } };
}

impl<'a> Script<'a> {
    /// The script of these lines: one section.
    pub(crate) fn new(alloc: Global, lines: Vec<Line<'a>>) -> Result<Script<'a>, AllocError>
        ensures { IfOk result (λ script. script ≡ script_of lines.entry.items) }
    {
        let limit = limit_of(&lines);
        let mut sections = Vec::new(alloc);
        sections.push(Section::new(lines))?;
        Ok(Script { limit, sections })
    }

    /// The most that the root may hold, in bytes.
    pub fn limit(&self) -> u64
        ensures { result ≡ self.now.limit }
    {
        self.limit
    }

    /// The sections, in order. It takes no memory.
    pub fn sections(&self) -> &[Section<'a>]
        ensures { result.now ≡ self.now.sections }
    {
        &self.sections
    }
}

// The root's limit that these lines set.
fn limit_of(lines: &[Line]) -> u64
    ensures { result ≡ limit_of lines.now }
{
    match lines {
        [first, ..] => match first {
            Line::Root { limit } => *limit,
            _ => MAX_LIMIT,
        },
        [] => MAX_LIMIT,
    }
}
