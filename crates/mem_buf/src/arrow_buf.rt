//! Buffers with their bytes.

use crate::view::View;

/// A buffer: a counted use of a chunk, and a view of its bytes. After `ArrowBuf` of Arrow Java. Its hold is given back by
/// `Memory::release`, and isn't lost where the buffer is: a buffer can't be dropped as long as its hold can't.
#[derive(Debug)]
pub struct ArrowBuf<H> {
    pub hold: H,
    pub view: View,
}
