//! Bytes are read as a script.
ghost use Rattle.std.specs.Prelude.{◌≡◌, ℕ, IfOk};
ghost use Rattle.std.specs.Str.Lines.{lines};
ghost use Rattle.script.specs.Grammar.{IsScript, IsFirstUnreadable, TextsHaveOneReading};

use crate::form::Form;
use crate::reading::Reading;
use crate::refused::ScriptRefused;
use crate::script::Script;
use crate::text::first_line;
use std::alloc::Global;

/// Reads a script of the given form. Its names stay in the bytes, so that a line takes no memory but its place among the lines.
pub fn read_script<'a>(
    alloc: Global,
    bytes: &'a [u8],
    form: Form,
) -> Result<Script<'a>, ScriptRefused>
    ensures read { IfOk result (IsScript form (lines bytes.now)) }
    ensures bad { (line : ℕ) → result ≡ Err (ScriptRefused.Bad line)
        → IsFirstUnreadable form (lines bytes.now) line }
{
    let mut reading = Reading::new(alloc);
    let mut rest = bytes;
    let mut line: u64 = 1;
    while !rest.is_empty() {
        let (text, more) = first_line(rest);
        if !reading.take(form, text)? {
            return Err(ScriptRefused::Bad { line });
        }
        rest = more;
        line += 1;
    }
    Ok(reading.finish(alloc)?)
}

/// The law that a text is one script at most, or has one first unreadable line and is none: so the clauses of `read_script`
/// determine its answer.
pub fn texts_have_one_reading()
    ensures { TextsHaveOneReading }
{}

#[cfg(test)]
mod tests;
