//! Pieces of bytes in memory.

ghost use Rattle.std.specs.Prelude.{◌≡◌, ◌++◌, min, length, take, drop};

/// Copies the first bytes to the front of `buf`, at most `step` of them, and gives their number.
pub fn copy_piece(bytes: &[u8], step: usize, buf: &mut [u8]) -> usize
    ensures number { result ≡ min (min (length buf.old) step) (length bytes.now) }
    ensures copied { buf.new ≡ take result bytes.now ++ drop result buf.old }
{
    let n = buf.len().min(step).min(bytes.len());
    buf[..n].copy_from_slice(&bytes[..n]);
    n
}
