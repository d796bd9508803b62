//! The arrow of a connection, which stands behind its sender as `->` or behind its receiver as `<-`.

ghost use Rattle.std.specs.Prelude.{◌≡◌, ◌==◌, is_some};
ghost use Rattle.std.specs.List.{starts_with};
ghost use Rattle.std.specs.Option.{option_map};
ghost use Rattle.config_text.specs.Bytes.{arrow, back_arrow};
ghost use Rattle.config_text.specs.Connections.{split_at_arrow};
ghost use Rattle.config_text.specs.Inner.{cut_of};

/// Which end of a connection stands before the arrow.
#[derive(Clone, Copy)]
pub enum Arrow {
    FromSender,
    FromReceiver,
}

/// A content cut at its arrow, lent from its line.
#[derive(Clone, Copy)]
pub struct LentCut<'a> {
    pub before: &'a [u8],
    pub behind: &'a [u8],
    pub arrow: Arrow,
}

fn begins_with_arrow(bytes: &[u8]) -> bool
    ensures { result ≡ starts_with ◌==◌ bytes.now arrow }
{
    bytes.starts_with(b"->")
}

fn begins_with_back_arrow(bytes: &[u8]) -> bool
    ensures { result ≡ starts_with ◌==◌ bytes.now back_arrow }
{
    bytes.starts_with(b"<-")
}

/// The content, cut at the arrow that begins first.
pub fn split_at_arrow(bytes: &[u8]) -> Option<LentCut<'_>>
    ensures { option_map cut_of result ≡ split_at_arrow bytes.now }
{
    for i in 0..bytes.len() {
        if begins_with_arrow(&bytes[i..]) {
            return Some(LentCut {
                before: &bytes[..i],
                behind: &bytes[i + 2..],
                arrow: Arrow::FromSender,
            });
        }
        if begins_with_back_arrow(&bytes[i..]) {
            return Some(LentCut {
                before: &bytes[..i],
                behind: &bytes[i + 2..],
                arrow: Arrow::FromReceiver,
            });
        }
    }
    None
}

pub fn has_arrow(bytes: &[u8]) -> bool
    ensures { result ≡ is_some (split_at_arrow bytes.now) }
{
    split_at_arrow(bytes).is_some()
}
