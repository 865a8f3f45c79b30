//! Copies texts into a caller's buffer.
ghost use Rattle.pethuvazh.specs.Copies.{IsCopy};

/// Writes a text if the buffer has room for it, and its length in any case.
pub fn copy(text: &[u8], buffer: &mut [u8], length: &mut usize)
    ensures { IsCopy text.now buffer.old buffer.new length.new }
{
    *length = text.len();
    if text.len() <= buffer.len() {
        buffer[..text.len()].copy_from_slice(text);
    }
}
