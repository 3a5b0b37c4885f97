//! The frames of a journal's file.
ghost use Rattle.std.specs.Prelude.{◌≡◌, ◌↔◌, ◌<◌, ◌≤◌, length, drop, take, true, IsTrue, IfSome, IfNone, None, Some};
ghost use Rattle.ba_journal.specs.Frames.{header, is_fresh, frame_of, IsForeign};

/// What a journal's file begins with.
pub const HEADER: [u8; 16] = *b"\x01BAJOURNAL\x01\0\0\0\0\0";

/// Whether no journal was made in the file, or its making broke off.
pub fn is_fresh(file: &[u8]) -> bool
    ensures { result ≡ is_fresh file.now }
{
    file.len() <= HEADER.len() || (file.len() == HEADER.len() + 1 && file[0] != 1)
}

/// The payload of the frame that begins with these bytes and the bytes from the next gate on, where it
/// counts.
pub fn next_frame<'a>(bytes: &'a [u8]) -> Option<(&'a [u8], &'a [u8])>
    ensures some { IfSome result (λ f. frame_of bytes.now ≡ Some (f.0.now, f.1.now)) }
    ensures none { IfNone result (frame_of bytes.now ≡ None) }
{
    let Some((gate, behind)) = bytes.split_first() else {
        return None;
    };
    if *gate != 1 {
        return None;
    }
    let Some((digits, rest)) = behind.split_first_chunk::<4>() else {
        return None;
    };
    let size = u32::from_le_bytes(*digits) as usize;
    if size >= rest.len() {
        return None;
    }
    Some(rest.split_at(size))
}

/// The place of the first byte of the header that is another. The file has a whole header.
pub fn foreign_at(file: &[u8]) -> Option<usize>
    requires { 16 ≤ length file.now }
    ensures some { IfSome result (λ place. IsForeign file.now place) }
    ensures none { IfNone result (take 16 file.now ≡ header) }
{
    for place in 0..HEADER.len() {
        if file[place] != HEADER[place] {
            return Some(place);
        }
    }
    None
}
