//! The line of a setting, by its front: a name, an `=` and what stands behind that.

ghost use Rattle.std.specs.Prelude.{◌≡◌, IfSome, length};
ghost use Rattle.std.specs.List.{list_all};
ghost use Rattle.config_text.specs.Inner.{Gives, IsSettingFront, is_plain_byte, value_behind};

use crate::TextKind;
use crate::content::value_in;
use crate::parts::{before_comment, is_text, name_in, split_at, trimmed, without_cr};

/// The name, and what stands behind the `=`, where the line begins with a name and an `=`.
pub fn setting_front(line: &[u8]) -> Option<(&[u8], &[u8])>
    ensures { IfSome result (λ parts. IsSettingFront line.now parts.0.now parts.1.now) }
{
    let (before, behind) = split_at(line, b'=')?;
    match name_in(before) {
        Ok(name) => Some((name, behind)),
        Err(_) => None,
    }
}

fn is_plain_byte(byte: u8) -> bool
    ensures { result ≡ is_plain_byte byte }
{
    (byte == b'\t' || (b' ' <= byte && byte <= b'~')) && byte != b'"' && byte != b'#'
}

// Whether there is neither a comment nor a quotation mark, and all of it may stand in a line. With no early end several
// bytes are tested at once.
fn is_plain(bytes: &[u8]) -> bool
    ensures { result ≡ list_all is_plain_byte bytes.now }
{
    let mut plain = true;
    for byte in bytes {
        plain &= is_plain_byte(*byte);
    }
    plain
}

/// The value that stands behind the `=`.
pub fn value_behind(behind: &[u8]) -> Result<&[u8], TextKind>
    ensures { Gives (λ value. value.now) result (value_behind behind.now) }
{
    if is_plain(behind) {
        return Ok(trimmed(behind));
    }
    let visible = before_comment(without_cr(behind));
    if !is_text(visible) {
        return Err(TextKind::BadByte);
    }
    value_in(visible)
}
