//! The line of a connection.

ghost use Rattle.std.specs.Prelude.{◌≡◌, ◌&&◌};
ghost use Rattle.std.specs.Option.{option_map};
ghost use Rattle.music_base.specs.Names.{is_name};
ghost use Rattle.config_text.specs.Connections.{end_in, width_in, right_in, width_given, directed, connection_of, connection_in};
ghost use Rattle.config_text.specs.Inner.{Gives, names_of, cut_of, part_of, link_of};

use crate::TextKind;
use crate::arrows::{Arrow, LentCut, split_at_arrow};
use crate::link_options::{LinkOptions, options_in};
use crate::parts::{after_first, around_blank, before_first, has, trimmed};
use music_base::{count_up_to, is_name};
use text_words::around;

/// The greatest width.
const MOST_WIDTH: u32 = 65_536;

/// An end of a connection, lent from its line.
#[derive(Clone, Copy)]
pub struct End<'a> {
    pub app: &'a [u8],
    pub port: &'a [u8],
}

/// The right end, the width text where there is one, and the option text, lent from their line.
#[derive(Clone, Copy)]
pub struct LentPart<'a> {
    pub end: &'a [u8],
    pub width: Option<&'a [u8]>,
    pub options: &'a [u8],
}

/// A connection, lent from its line.
#[derive(Clone, Copy)]
pub struct Connection<'a> {
    pub from: End<'a>,
    pub to: End<'a>,
    pub width: Option<u32>,
    pub options: LinkOptions,
}

fn are_names(app: &[u8], port: &[u8]) -> bool
    ensures { result ≡ (is_name app.now && is_name port.now) }
{
    is_name(app) && is_name(port)
}

pub fn end_in(text: &[u8]) -> Result<End<'_>, TextKind>
    ensures { Gives names_of result (end_in text.now) }
{
    let names = trimmed(text);
    let app = before_first(names, b'.');
    let port = after_first(names, b'.');
    if are_names(app, port) {
        Ok(End { app, port })
    } else {
        Err(TextKind::BadName)
    }
}

#[tactic(auto, unfolding(music_base::specs::Counts::count_up_to))]
pub fn width_in(text: &[u8]) -> Result<u32, TextKind>
    ensures { Gives (λ n. n) result (width_in text.now) }
{
    match count_up_to(MOST_WIDTH, trimmed(text)) {
        None | Some(0) => Err(TextKind::BadWidth),
        Some(width) => Ok(width),
    }
}

/// What stands behind the arrow, cut into the right end, the width and the options.
pub fn right_in(right: &[u8]) -> Result<LentPart<'_>, TextKind>
    ensures { Gives part_of result (right_in right.now) }
{
    if !has(right, b'[') {
        let (end, options) = around_blank(right);
        return Ok(LentPart {
            end,
            width: None,
            options,
        });
    }
    let (end, inside) = around(b'[', right);
    if !has(inside, b']') {
        return Err(TextKind::BadLine);
    }
    let (width, options) = around(b']', inside);
    Ok(LentPart {
        end,
        width: Some(width),
        options,
    })
}

fn width_given(text: Option<&[u8]>) -> Result<Option<u32>, TextKind>
    ensures { Gives (λ n. n) result (width_given (option_map (λ t. t.now) text.entry)) }
{
    match text {
        None => Ok(None),
        Some(text) => {
            let width = width_in(text)?;
            Ok(Some(width))
        }
    }
}

fn directed<'a>(
    arrow: Arrow,
    left: End<'a>,
    right: End<'a>,
    width: Option<u32>,
    options: LinkOptions,
) -> Connection<'a>
    ensures { link_of result ≡ directed arrow (names_of left.entry) (names_of right.entry) width options }
{
    let (from, to) = match arrow {
        Arrow::FromSender => (left, right),
        Arrow::FromReceiver => (right, left),
    };
    Connection {
        from,
        to,
        width,
        options,
    }
}

fn connection_of(cut: LentCut<'_>) -> Result<Connection<'_>, TextKind>
    ensures { Gives link_of result (connection_of (cut_of cut.entry)) }
{
    if has(cut.before, b'"') || has(cut.behind, b'"') {
        return Err(TextKind::BadLine);
    }
    let part = right_in(trimmed(cut.behind))?;
    let left = end_in(cut.before)?;
    let right = end_in(part.end)?;
    let width = width_given(part.width)?;
    let options = options_in(part.options).ok_or(TextKind::BadOption)?;
    Ok(directed(cut.arrow, left, right, width, options))
}

/// The connection that the content states.
pub fn connection_in(content: &[u8]) -> Result<Connection<'_>, TextKind>
    ensures { Gives link_of result (connection_in content.now) }
{
    match split_at_arrow(content) {
        None => Err(TextKind::BadLine),
        Some(cut) => connection_of(cut),
    }
}
