//! Views of shared bytes.
ghost use Rattle.std.specs.Prelude.{◌+◌, ◌≤◌, length};
ghost use Rattle.std.specs.Arc.{arc_value};

use crate::slice_refused::{OutOfBuffer, SliceRefused};
use std::sync::Arc;

/// A part of some bytes that other views may share. After a slice of `ArrowBuf` of Arrow Java, without its reference: that is the
/// hold's.
#[derive(Debug, Drop)]
pub struct View {
    /// The place of the first byte, counted from the first of the shared bytes.
    pub from: u64,
    /// How many bytes the view has.
    pub len: u64,
    /// The shared bytes, which are freed with their last view.
    pub bytes: Arc<Vec<u8>>,
    pub ghost within: { from + len ≤ length (arc_value bytes).items },
}

impl View {
    ghost use Rattle.std.specs.Prelude.{◌≡◌, ◌≢◌, ◌<◌, ◌↔◌, Err, IfOk};
    ghost use Rattle.mem_buf.specs.View.{bytes_in, part_of};

    /// The bytes of the view. Takes no memory.
    #[tactic(auto, using(crate::proofs::PartLemmas::range_of_part))]
    pub fn bytes(&self) -> &[u8]
        ensures value { result.now ≡ bytes_in self.now }
    {
        let from = self.from as usize;
        let end = from + self.len as usize;
        &self.bytes.as_slice()[from..end]
    }

    /// The part of the view that begins at a place, counted from the view's first byte, and has so many bytes. It shares the bytes
    /// and copies none. After `ArrowBuf.slice`.
    #[tactic(auto, using(crate::proofs::PartLemmas::part_of_part))]
    pub fn slice(&self, from: u64, len: u64) -> Result<View, SliceRefused>
        ensures part { IfOk result (λ part. bytes_in part ≡ part_of from len (bytes_in self.now)) }
        ensures len { IfOk result (λ part. part.len ≡ len) }

        // It is refused exactly where it ends beyond the view.
        ensures out_of_buffer { result ≢ Err SliceRefused.NoMemory
            → (result ≡ Err (SliceRefused.OutOfBuffer (record { len = self.now.len })) ↔ self.now.len < from + len) }
    {
        let beyond = Err(SliceRefused::OutOfBuffer(OutOfBuffer { len: self.len }));
        let Some(end) = from.checked_add(len) else {
            return beyond;
        };
        if end > self.len {
            return beyond;
        }
        let Ok(bytes) = Arc::try_clone(&self.bytes) else {
            return Err(SliceRefused::NoMemory);
        };
        Ok(View {
            from: self.from + from,
            len,
            bytes,
        })
    }
}
