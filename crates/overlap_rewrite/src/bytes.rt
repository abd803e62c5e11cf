//! Puts bytes in place of others.

ghost use Rattle.std.specs.Prelude.{◌≡◌, ◌+◌, ◌≤◌, length};
ghost use Rattle.erim_defs.specs.Rewriting.NewFile.{with_bytes};

/// Puts bytes in place of those that stand at a place.
pub fn put_at(file: &mut [u8], place: usize, bytes: &[u8])
    requires { place + length bytes.now ≤ length file.old }
    ensures new { file.new ≡ with_bytes place bytes.now file.old }
    ensures length { length file.new ≡ length file.old }
{
    file[place..place + bytes.len()].copy_from_slice(bytes);
}
