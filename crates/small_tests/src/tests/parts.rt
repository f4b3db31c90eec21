//! What a call takes or gives that passes on few bytes.
ghost use Rattle.std.specs.Prelude.{◌≡◌, ◌≤◌, length};

/// The first bytes of these, at most as many as asked.
pub fn first(bytes: &[u8], most: usize) -> &[u8]
    ensures of_these { length result.now ≤ length bytes.now }
    ensures few { length result.now ≤ most }
{
    &bytes[..bytes.len().min(most)]
}

/// Copies the first bytes of these to others, at most as many as asked, and answers how many it copied.
pub fn copy_first(from: &[u8], to: &mut [u8], most: usize) -> usize
    ensures same_room { length to.new ≡ length to.old }
    ensures in_room { result ≤ length to.old }
{
    let count = from.len().min(to.len()).min(most);
    to[..count].copy_from_slice(&from[..count]);
    count
}
