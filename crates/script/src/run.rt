//! A script is run as a trace.
ghost use Rattle.std.specs.Prelude.{◌≡◌, ◌++◌, ℕ, List, OnOk, OnErr};
ghost use Rattle.std.specs.Str.Lines.{lines};
ghost use Rattle.script.specs.Grammar.{ScriptParts, IsScript, IsFirstUnreadable};
ghost use Rattle.script.specs.Trace.{trace_text};
ghost use Rattle.script.specs.declared.form.Form.{Form};

use crate::refused::ScriptRefused;
use crate::running::Running;
use crate::text::first_line;
use std::alloc::Global;

/// Reads a trace, and appends what its lines print. Each line is run as it is read; where one is unreadable, or memory runs out,
/// what the lines before it printed is taken back.
pub fn run_trace(alloc: Global, bytes: &[u8], out: &mut Vec<u8>) -> Result<(), ScriptRefused>
    ensures text { OnOk result ((script : ScriptParts) × IsScript Form.Trace (lines bytes.now) script
        × (out.new.items ≡ out.old.items ++ trace_text script)) }

    // A refusal names the first unreadable line; after any error nothing was appended.
    ensures bad { (line : ℕ) → result ≡ Err (ScriptRefused.Bad line)
        → IsFirstUnreadable Form.Trace (lines bytes.now) line }
    ensures err { OnErr result (out.new.items ≡ out.old.items) }
{
    let before = out.len();
    match run_lines(alloc, bytes, out) {
        Ok(()) => Ok(()),
        Err(refused) => {
            out.truncate(before);
            Err(refused)
        }
    }
}

// The same, but that after an error what the lines before it printed stands there.
fn run_lines(alloc: Global, bytes: &[u8], out: &mut Vec<u8>) -> Result<(), ScriptRefused>
    ensures text { OnOk result ((script : ScriptParts) × IsScript Form.Trace (lines bytes.now) script
        × (out.new.items ≡ out.old.items ++ trace_text script)) }
    ensures bad { (line : ℕ) → result ≡ Err (ScriptRefused.Bad line)
        → IsFirstUnreadable Form.Trace (lines bytes.now) line }
    ensures grown { OnErr result ((more : List ℕ) × (out.new.items ≡ out.old.items ++ more)) }
{
    let mut running = Running::open(alloc)?;
    let mut rest = bytes;
    let mut line: u64 = 1;
    while !rest.is_empty() {
        let (text, more) = first_line(rest);
        if !running.take(alloc, text, out)? {
            return Err(ScriptRefused::Bad { line });
        }
        rest = more;
        line += 1;
    }
    Ok(())
}

#[cfg(test)]
mod tests;
