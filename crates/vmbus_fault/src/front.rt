//! Bytes or words at the front of a buffer.
ghost use Rattle.std.specs.Prelude.{◌≡◌, ◌≤◌, length, take, drop};

/// Writes bytes or words at the front of a buffer.
pub fn put_front<T: Copy>(out: &mut [T], items: &[T])
    requires { length items.now ≤ length out.old }
    ensures front { take (length items.now) out.new ≡ items.now }
    ensures rest { drop (length items.now) out.new ≡ drop (length items.now) out.old }
{
    out[..items.len()].copy_from_slice(items);
}
