//! Reading to the end of an input, within a limit.
//!
//! A turn is one read: it takes at least one byte or finds the end. The loop stops at the end, and once it
//! has one byte more than the limit, which shows that the input is too long. So it ends whatever it reads.
ghost use Rattle.std.specs.Prelude.{◌≡◌, ◌≢◌, [], ◌+◌, ◌-◌, ◌^◌, ◌<◌, ◌≤◌, length, take, IfOk, IfErr, IfSome, OnOk, OnErr, IsErrOf};
ghost use Rattle.std.specs.declared.io.ErrorKind.TheVariants.{Interrupted, OutOfMemory};
ghost use Rattle.std.specs.Io.{StartsWith, ReadsAtMost, appended_bytes};
ghost use Rattle.std.specs.Io.KnownBytes.{Consumes, IsAtEnd, Keeps};
ghost use Rattle.std.specs.IoError.{error_kind};
ghost use Rattle.mem_io.specs.Fill.{MakesProgress};

use crate::shelf::ShelfFault;
use std::io;
use std::io::{ErrorKind, Read};

// How many bytes a turn asks for at most.
const PIECE: usize = 65_536;

// What a turn came to.
#[derive(Drop)]
enum Turn {
    Took,
    Ended,
}

/// Takes the bytes of a reader up to its end, but at most one more than the limit. Memory is taken in
/// growing steps.
pub(crate) fn fill<R: Read>(
    reader: &mut R,
    into: &mut Vec<u8>,
    limit: u64,
) -> Result<(), ShelfFault>
    requires { into.old.items ≡ [] }
    ensures bound { length into.new.items ≤ limit + 1 }
    ensures within { OnOk result (length into.new.items ≤ limit) }
    ensures too_long { IsErrOf result ShelfFault.TooLong → length into.new.items ≡ limit + 1 }
    ensures failed { IsErrOf result ShelfFault.Failed → length into.new.items ≤ limit }

    // Where the reader tells its bytes.
    ensures whole { OnOk result (IfSome (R.remaining reader.old) (λ bytes. into.new.items ≡ bytes)) }
    ensures front { IfSome (R.remaining reader.old) (λ bytes. StartsWith bytes into.new.items) }

    // What was taken is in `into`, and the rest still in the reader.
    ensures none_lost { result ≢ Err ShelfFault.NoMemory
        → Consumes (R.remaining reader.old) (R.remaining reader.new) into.new.items }
{
    let mut buffer = [0u8; PIECE];
    let mut interrupts = 0;
    while into.len() as u64 <= limit {
        let room = (limit - into.len() as u64).saturating_add(1);
        let room = room.min(PIECE as u64) as usize;
        match take_turn(reader, &mut buffer[..room], into, &mut interrupts)? {
            Turn::Took => {}
            Turn::Ended => return Ok(()),
        }
    }
    Err(ShelfFault::TooLong)
}

// One turn: appends what one read gives, by way of the buffer.
fn take_turn<R: Read>(
    reader: &mut R,
    buffer: &mut [u8],
    into: &mut Vec<u8>,
    interrupts: &mut u64,
) -> io::Result<Turn>
    requires { 0 < length buffer.old }
    ensures progress { IfOk result (λ turn.
        MakesProgress turn into.old.items into.new.items (R.remaining reader.new)) }
    ensures bound { length into.new.items ≤ length into.old.items + length buffer.old }
    ensures grows { StartsWith into.new.items into.old.items }
    ensures bytes { OnOk result (Consumes (R.remaining reader.old) (R.remaining reader.new)
        (appended_bytes into.old.items into.new.items)) }
    ensures err { OnErr result (into.new.items ≡ into.old.items) }
    ensures none_lost { IfErr result (λ error. error_kind error ≢ OutOfMemory
        → Keeps (R.remaining reader.old) (R.remaining reader.new)) }
{
    let count = read_some(reader, buffer, interrupts)?;
    if count == 0 {
        return Ok(Turn::Ended);
    }
    into.extend_from_slice(&buffer[..count])?;
    Ok(Turn::Took)
}

// One read, made again where a signal interrupts it. `interrupts` counts how often that came.
fn read_some<R: Read>(reader: &mut R, buffer: &mut [u8], interrupts: &mut u64) -> io::Result<usize>
    ensures bound { ReadsAtMost result buffer.new }
    ensures bytes { IfOk result (λ count.
        Consumes (R.remaining reader.old) (R.remaining reader.new) (take count buffer.new)) }
    ensures end { IfOk result (λ count.
        count ≡ 0 → 0 < length buffer.old → IsAtEnd (R.remaining reader.new)) }
    ensures err { OnErr result (Keeps (R.remaining reader.old) (R.remaining reader.new)) }

    // It gives up at the end of the count, and not before.
    ensures retried { IfErr result (λ error.
        error_kind error ≡ Interrupted → 2 ^ 64 - 1 ≤ interrupts.new) }
{
    while *interrupts < u64::MAX {
        match reader.read(buffer) {
            Ok(count) => return Ok(count),
            Err(error) if error.kind() == ErrorKind::Interrupted => *interrupts += 1,
            Err(error) => return Err(error),
        }
    }
    Err(ErrorKind::Interrupted.into())
}

#[cfg(test)]
mod tests;
