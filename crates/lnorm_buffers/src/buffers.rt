//! Texts in the buffers of a caller.
ghost use Rattle.lnorm_buffers.specs.Buffers.{Takes};

/// Puts the front of a text into the buffer, as much as it takes, and leaves what is behind. The answer is the length of the
/// whole text in bytes: where that is past the buffer's, the text was cut.
pub fn put(text: &[u8], buffer: &mut [u8]) -> usize
    ensures { Takes buffer.old buffer.new text.now result }
{
    let count = text.len().min(buffer.len());
    buffer[..count].copy_from_slice(&text[..count]);
    text.len()
}
