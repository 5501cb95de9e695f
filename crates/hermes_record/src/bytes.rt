// Bytes copied one by one: the library's `copy_from_slice` is a call of C's memmove, and the archive is to call no more of C.
ghost use Rattle.std.specs.Prelude.{◌≡◌, length, min};
ghost use Rattle.std.proofs.Math.Seq.{paste};

// The bytes of `from` go to the front of `to`, as many as both have.
pub fn copy(from: &[u8], to: &mut [u8])
    ensures front { to.new ≡ paste to.old 0 from.now (min (length from.now) (length to.old)) }
    ensures whole { length from.now ≡ length to.old → to.new ≡ from.now }
{
    for k in 0..from.len().min(to.len()) {
        to[k] = from[k];
    }
}
