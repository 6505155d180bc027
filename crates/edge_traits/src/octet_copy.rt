// Octets that are copied to the front of a buffer.
ghost use Rattle.std.specs.Prelude.{◌≡◌, ◌≤◌, length, take};

/// Copies the piece to the front of the buffer.
pub fn put_front(buf: &mut [u8], piece: &[u8])
    requires { length piece.now ≤ length buf.old }
    ensures { take (length piece.now) buf.new ≡ piece.now }
{
    buf[..piece.len()].copy_from_slice(piece);
}
