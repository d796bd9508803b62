//! The lines of a text.

ghost use Rattle.std.specs.Prelude.{◌≡◌, ◌∷◌, ◌<◌, length, IfSome};
ghost use Rattle.std.specs.List.{position};
ghost use Rattle.config_text.specs.Lines.{is_line_end, raw_lines};

use music_base::byte_place;

/// How many bytes a text may have.
pub const LONGEST_TEXT: usize = 1_048_576;

/// The first line of a text that is not empty, and what stands after its line end. The LF is in neither; a last line
/// needs none.
pub fn split_line(bytes: &[u8]) -> (&[u8], &[u8])
    requires { 0 < length bytes.now }
    ensures lines { raw_lines bytes.now ≡ result.0.now ∷ raw_lines result.1.now }
    ensures fewer { length result.1.now < length bytes.now }
{
    match line_end(bytes) {
        Some(end) => (&bytes[..end], &bytes[end + 1..]),
        None => (bytes, &bytes[bytes.len()..]),
    }
}

fn line_end(bytes: &[u8]) -> Option<usize>
    ensures place { result ≡ position is_line_end bytes.now }
    ensures within { IfSome result (λ end. end < length bytes.now) }
{
    byte_place(b'\n', bytes)
}
