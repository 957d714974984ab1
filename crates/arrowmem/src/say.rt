//! The lines that a run prints where it doesn't end as asked.
ghost use Rattle.std.specs.Prelude.{◌≡◌, ◌++◌, [], IfOk, OnOk};
ghost use Rattle.arrowmem.specs.Answers.{FaultAnswers};
ghost use Rattle.arrowmem.specs.Lines.{file_line, place_line, refusal_text};
ghost use Rattle.arrowmem.specs.Steps.{status_of};

use crate::status::Status;
use mem_io::ShelfFault;
use mem_num::Full;
use std::alloc::{AllocError, Global};

/// Adds a line on a file.
pub(crate) fn say(
    alloc: Global,
    out: &mut Vec<u8>,
    what: &str,
    file: &str,
) -> Result<(), AllocError>
    ensures { OnOk result (out.new.items ≡ out.old.items ++ file_line what.now file.now) }
{
    let text = format!(in alloc; "{what}{file}\n")?;
    out.extend_from_slice(text.as_bytes())
}

/// Adds the line on a file that wasn't read, and gives the status that tells of it.
pub(crate) fn say_fault(
    alloc: Global,
    out: &mut Vec<u8>,
    file: &str,
    fault: ShelfFault,
) -> Result<Status, AllocError>
    requires empty { out.old.items ≡ [] }
    ensures answers { IfOk result (λ status. FaultAnswers file.now fault status out.new.items) }
    ensures status { IfOk result (λ status. status ≡ status_of fault) }
{
    match fault {
        ShelfFault::Failed => {
            say(alloc, out, "read fault: ", file)?;
            Ok(Status::ReadFault)
        }
        ShelfFault::TooLong => {
            say(alloc, out, "too long: ", file)?;
            Ok(Status::TooLong)
        }
        ShelfFault::NoMemory => Err(AllocError),
    }
}

/// Adds the line that names a place of a file, by its number.
pub(crate) fn say_place(
    alloc: Global,
    out: &mut Vec<u8>,
    file: &str,
    what: &str,
    number: u64,
) -> Result<(), AllocError>
    ensures { OnOk result (out.new.items ≡ out.old.items ++ place_line file.now what.now number) }
{
    let text = format!(in alloc; "input: {file}{what}{number}\n")?;
    out.extend_from_slice(text.as_bytes())
}

/// Adds the line on the first request that passed a limit, with the batch that made it.
pub(crate) fn say_refusal(
    alloc: Global,
    out: &mut Vec<u8>,
    full: Full,
    batch: u32,
) -> Result<(), AllocError>
    ensures { OnOk result (out.new.items ≡ out.old.items ++ refusal_text (record { full = full; batch = batch })) }
{
    let node = full.node.0;
    let held = full.held;
    let amount = full.amount;
    let limit = full.limit;
    let text = format!(in alloc;
        "full: #{node} held {held} amount {amount} limit {limit} batch {batch}\n"
    )?;
    out.extend_from_slice(text.as_bytes())
}
