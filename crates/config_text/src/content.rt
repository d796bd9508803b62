//! What one line says.

ghost use Rattle.std.specs.Prelude.{◌≡◌, ◌<◌, slice_index, length};
ghost use Rattle.config_text.specs.Bytes.{open_bracket};
ghost use Rattle.config_text.specs.Contents.{is_quoted, value_in, section_in, is_setting, setting_in, content_in, content_of};
ghost use Rattle.config_text.specs.Inner.{Gives, seen, setting_before};

use crate::TextKind;
use crate::arrows::has_arrow;
use crate::connection::{Connection, connection_in};
use crate::parts::{
    after_first, before_comment, before_first, between_ends, ends_in_bracket, has, is_text,
    name_in, trimmed, without_cr,
};
use crate::setting_line::{setting_front, value_behind};

/// What a line says that is not faulty by itself, lent from the line.
#[derive(Clone, Copy)]
pub enum LentContent<'a> {
    Blank,
    Section(&'a [u8]),
    Setting(&'a [u8], &'a [u8]),
    Connection(Connection<'a>),
}

fn is_quoted(raw: &[u8]) -> bool
    ensures { result ≡ is_quoted raw.now }
{
    2 <= raw.len() && raw[0] == b'"' && raw[raw.len() - 1] == b'"' && !has(between_ends(raw), b'"')
}

/// The value that stands in the text, with blanks around it or none.
pub fn value_in(text: &[u8]) -> Result<&[u8], TextKind>
    ensures { Gives (λ value. value.now) result (value_in text.now) }
{
    let raw = trimmed(text);
    if is_quoted(raw) {
        Ok(between_ends(raw))
    } else if has(raw, b'"') {
        Err(TextKind::BadLine)
    } else {
        Ok(raw)
    }
}

fn is_setting(content: &[u8]) -> bool
    ensures { result ≡ is_setting content.now }
{
    has(content, b'=') && !has_arrow(before_first(content, b'='))
}

fn setting_in(content: &[u8]) -> Result<LentContent<'_>, TextKind>
    ensures { Gives seen result (setting_in content.now) }
{
    let name = name_in(before_first(content, b'='))?;
    let value = value_in(after_first(content, b'='))?;
    Ok(LentContent::Setting(name, value))
}

fn section_in(content: &[u8]) -> Result<LentContent<'_>, TextKind>
    requires first { slice_index content.now 0 ≡ open_bracket }
    requires some { 0 < length content.now }
    ensures { Gives seen result (section_in content.now) }
{
    if !ends_in_bracket(content) {
        return Err(TextKind::BadLine);
    }
    let name = name_in(between_ends(content))?;
    Ok(LentContent::Section(name))
}

fn content_in(content: &[u8]) -> Result<LentContent<'_>, TextKind>
    ensures { Gives seen result (content_in content.now) }
{
    if content.is_empty() {
        return Ok(LentContent::Blank);
    }
    if content[0] == b'[' {
        section_in(content)
    } else if is_setting(content) {
        setting_in(content)
    } else {
        let connection = connection_in(content)?;
        Ok(LentContent::Connection(connection))
    }
}

fn content_of_any(line: &[u8]) -> Result<LentContent<'_>, TextKind>
    ensures { Gives seen result (content_of line.now) }
{
    let visible = before_comment(without_cr(line));
    if !is_text(visible) {
        return Err(TextKind::BadByte);
    }
    content_in(trimmed(visible))
}

fn content_of_setting<'a>(name: &'a [u8], behind: &'a [u8]) -> Result<LentContent<'a>, TextKind>
    ensures { Gives seen result (setting_before name.now behind.now) }
{
    let value = value_behind(behind)?;
    Ok(LentContent::Setting(name, value))
}

/// What a line says, or its first fault. A setting, as most lines are, is seen by its front.
pub fn content_of(line: &[u8]) -> Result<LentContent<'_>, TextKind>
    ensures { Gives seen result (content_of line.now) }
{
    match setting_front(line) {
        Some((name, behind)) => content_of_setting(name, behind),
        None => content_of_any(line),
    }
}
