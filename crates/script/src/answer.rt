//! The answers of a trace's lines, written to a text.
ghost use Rattle.std.specs.Prelude.{◌≡◌, ◌≢◌, ◌++◌, Err, OnOk, string_bytes};
ghost use Rattle.script.specs.Answers.{taken_text, unknown_text, child_text, buffer_text};
ghost use Rattle.script.specs.Answers.{empty_text, empty_transfer_text, given_back_text, refused_text};
ghost use Rattle.script.specs.Answers.{retain_text, transfer_text, slice_text, outside_text};
ghost use Rattle.script.specs.Answers.{release_text, close_text, headroom_text};

use mem_num::{
    AllocId, BufferRefused, ChildRefused, Closed, NameText, NotClosed, Ref, Released, SoloRefused,
};
use std::alloc::AllocError;

pub(crate) fn write_taken(text: &mut String, name: &NameText) -> Result<(), AllocError>
    ensures { OnOk result (string_bytes text.new ≡ string_bytes text.old ++ taken_text name.now) }
{
    write!(text, "taken {name}\n")
}

pub(crate) fn write_unknown(text: &mut String, name: &NameText) -> Result<(), AllocError>
    ensures { OnOk result (string_bytes text.new ≡ string_bytes text.old ++ unknown_text name.now) }
{
    write!(text, "unknown {name}\n")
}

pub(crate) fn write_child(
    text: &mut String,
    name: &NameText,
    answer: Result<AllocId, ChildRefused>,
) -> Result<(), AllocError>
    ensures { OnOk result (string_bytes text.new
        ≡ string_bytes text.old ++ child_text name.now answer) }
{
    match answer {
        Ok(number) => write!(text, "child {name} is {number}\n"),
        Err(refused) => write!(text, "{refused}\n"),
    }
}

/// Want of memory has no text.
pub(crate) fn write_buffer(
    text: &mut String,
    name: &NameText,
    answer: Result<Ref, BufferRefused>,
) -> Result<(), AllocError>
    ensures memory { OnOk result (answer ≢ Err BufferRefused.NoMemory) }
    ensures text { OnOk result (string_bytes text.new
        ≡ string_bytes text.old ++ buffer_text name.now answer) }
{
    match answer {
        Ok(buffer) => write_granted(text, name, buffer),
        Err(BufferRefused::TooLarge(refused)) => write!(text, "{refused}\n"),
        Err(BufferRefused::Closed(refused)) => write!(text, "{refused}\n"),
        Err(BufferRefused::Full(refused)) => write!(text, "{refused}\n"),
        Err(BufferRefused::NoMemory) => Err(AllocError),
    }
}

fn write_granted(text: &mut String, name: &NameText, buffer: Ref) -> Result<(), AllocError>
    ensures { OnOk result (string_bytes text.new
        ≡ string_bytes text.old ++ buffer_text name.now (Ok buffer)) }
{
    let chunk = buffer.chunk;
    let size = buffer.size;
    if size == 0 {
        write!(text, "buffer {name} empty\n")
    } else {
        write!(text, "buffer {name} chunk {chunk} size {size}\n")
    }
}

/// The answer to a call on the empty buffer.
pub(crate) fn write_empty(text: &mut String, call: &str, name: &NameText) -> Result<(), AllocError>
    ensures { OnOk result (string_bytes text.new
        ≡ string_bytes text.old ++ empty_text call.now name.now) }
{
    write!(text, "{call} {name} empty\n")
}

pub(crate) fn write_empty_transfer(text: &mut String, name: &NameText) -> Result<(), AllocError>
    ensures { OnOk result (string_bytes text.new
        ≡ string_bytes text.old ++ empty_transfer_text name.now) }
{
    write!(text, "transfer {name} empty fit\n")
}

/// The answer for a reference that was given back before.
pub(crate) fn write_given_back(text: &mut String, reference: Ref) -> Result<(), AllocError>
    ensures { OnOk result (string_bytes text.new ≡ string_bytes text.old ++ given_back_text reference) }
{
    let Ref { chunk, alloc, .. } = reference;
    write!(text, "{}\n", Released { chunk, alloc })
}

/// Want of memory has no text.
fn write_refused(text: &mut String, refused: SoloRefused) -> Result<(), AllocError>
    ensures memory { OnOk result (refused ≢ SoloRefused.NoMemory) }
    ensures text { OnOk result (string_bytes text.new ≡ string_bytes text.old ++ refused_text refused) }
{
    match refused {
        SoloRefused::Released(refused) => write!(text, "{refused}\n"),
        SoloRefused::Closed(refused) => write!(text, "{refused}\n"),
        SoloRefused::NoMemory => Err(AllocError),
    }
}

pub(crate) fn write_retain(
    text: &mut String,
    name: &NameText,
    answer: Result<Ref, SoloRefused>,
) -> Result<(), AllocError>
    ensures memory { OnOk result (answer ≢ Err SoloRefused.NoMemory) }
    ensures text { OnOk result (string_bytes text.new
        ≡ string_bytes text.old ++ retain_text name.now answer) }
{
    match answer {
        Ok(Ref { chunk, alloc, .. }) => write!(text, "retain {name} chunk {chunk} at {alloc}\n"),
        Err(refused) => write_refused(text, refused),
    }
}

pub(crate) fn write_transfer(
    text: &mut String,
    name: &NameText,
    answer: Result<(Ref, bool), SoloRefused>,
) -> Result<(), AllocError>
    ensures memory { OnOk result (answer ≢ Err SoloRefused.NoMemory) }
    ensures text { OnOk result (string_bytes text.new
        ≡ string_bytes text.old ++ transfer_text name.now answer) }
{
    let (reference, fits) = match answer {
        Ok(moved) => moved,
        Err(refused) => return write_refused(text, refused),
    };
    let Ref { chunk, alloc, .. } = reference;
    let fit = if fits { "fit" } else { "over" };
    write!(text, "transfer {name} chunk {chunk} at {alloc} {fit}\n")
}

pub(crate) fn write_slice(
    text: &mut String,
    name: &NameText,
    start: u64,
    len: u64,
) -> Result<(), AllocError>
    ensures { OnOk result (string_bytes text.new
        ≡ string_bytes text.old ++ slice_text name.now start len) }
{
    write!(text, "slice {name} from {start} len {len}\n")
}

pub(crate) fn write_outside(text: &mut String, len: u64) -> Result<(), AllocError>
    ensures { OnOk result (string_bytes text.new ≡ string_bytes text.old ++ outside_text len) }
{
    write!(text, "outside {len}\n")
}

pub(crate) fn write_release(
    text: &mut String,
    name: &NameText,
    answer: Result<bool, Released>,
) -> Result<(), AllocError>
    ensures { OnOk result (string_bytes text.new
        ≡ string_bytes text.old ++ release_text name.now answer) }
{
    match answer {
        Ok(true) => write!(text, "release {name} gone\n"),
        Ok(false) => write!(text, "release {name} kept\n"),
        Err(refused) => write!(text, "{refused}\n"),
    }
}

pub(crate) fn write_close(
    text: &mut String,
    name: &NameText,
    at: AllocId,
    answer: Result<(), NotClosed>,
) -> Result<(), AllocError>
    ensures { OnOk result (string_bytes text.new
        ≡ string_bytes text.old ++ close_text name.now at answer) }
{
    match answer {
        Ok(()) => write!(text, "close {name} ok\n"),
        Err(NotClosed::InUse { uses }) => write!(text, "inuse {uses}\n"),
        Err(NotClosed::Closed { uses: _ }) => write!(text, "closed {at}\n"),
    }
}

pub(crate) fn write_headroom(
    text: &mut String,
    name: &NameText,
    answer: Result<i128, Closed>,
) -> Result<(), AllocError>
    ensures { OnOk result (string_bytes text.new
        ≡ string_bytes text.old ++ headroom_text name.now answer) }
{
    match answer {
        Ok(bytes) => write!(text, "headroom {name} {bytes}\n"),
        Err(refused) => write!(text, "{refused}\n"),
    }
}
