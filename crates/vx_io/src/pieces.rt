//! `give`: the copy out of the sources in memory.

ghost use Rattle.std.specs.Prelude.{◌≡◌, ◌≤◌, length, min, take, drop};

// Copies the front of `bytes` into the front of `buf`, at most `most` bytes of it, and gives how many.
pub(crate) fn give(bytes: &[u8], most: usize, buf: &mut [u8]) -> usize
    ensures count { result ≡ min most (min (length buf.old) (length bytes.now)) }
    ensures within { result ≤ length bytes.now }
    ensures front { take result buf.new ≡ take result bytes.now }
{
    let count = most.min(buf.len().min(bytes.len()));
    buf[..count].copy_from_slice(&bytes[..count]);
    count
}
