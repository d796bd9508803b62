ghost use Rattle.std.specs.Prelude.{true, ◌<◌, ◌≡◌, ◌==◌, ◌∷◌, ◌++◌, [], length, OnOk, OnErr};
ghost use Rattle.config_text.specs.Connections.{is_width, is_link};
ghost use Rattle.config_text.specs.Options.{is_latency, is_buffered};
ghost use Rattle.config_text.specs.Lawful.{are_links};

use crate::LinkText;
use music_base::NoMemory;
use std::alloc::Global;
use std::marker::Model;

/// Connections in the order of the text: at most 64. Each width is 1 to 65,536, each latency at most 10^15 ns, and each
/// `buffered` 1 to 1,000,000. Contracts see a list.
#[derive(Debug, Drop)]
pub struct Links {
    items: Vec<LinkText>,
}

impl Model for Links {
    ghost use Rattle.std.specs.Prelude.{List, ◌≡◌, true};
    ghost use Rattle.config_text.specs.declared.link_text.LinkText.{LinkText};
    ghost use Rattle.config_text.specs.Lawful.{are_links};

    ghost Value = { List LinkText };

    ghost view = { λ links. links.items.items };

    ghost invariant = { λ links. are_links links.items.items ≡ true };
}

/// By their types the four names are names.
fn lawful(link: &LinkText)
    requires width { is_width link.now.width ≡ true }
    requires latency { is_latency link.now.latency ≡ true }
    requires buffered { is_buffered link.now.buffered ≡ true }
    ensures { is_link link.now ≡ true }
{
    let _from_app = link.from_app.as_slice();
    let _from_port = link.from_port.as_slice();
    let _to_app = link.to_app.as_slice();
    let _to_port = link.to_port.as_slice();
}

impl Links {
    /// No connection. It takes no memory.
    pub fn new(alloc: Global) -> Links
        ensures { result ≡ [] }
    {
        Links {
            items: Vec::new(alloc),
        }
    }

    pub fn len(&self) -> usize
        ensures { result ≡ length self.now }
    {
        self.items.len()
    }

    pub fn is_empty(&self) -> bool
        ensures { result ≡ (length self.now == 0) }
    {
        self.items.is_empty()
    }

    pub fn as_slice(&self) -> &[LinkText]
        ensures items { result.now ≡ self.now }
        ensures lawful { are_links self.now ≡ true }
    {
        self.items.as_slice()
    }

    /// Appends a connection, where there are fewer than 64. What it states is within the limits: a width of 1 to 65,536, a
    /// latency of at most 10^15 ns, and a `buffered` of 1 to 1,000,000. Where memory is wanting the list stays as it was.
    pub fn push(&mut self, link: LinkText) -> Result<(), NoMemory>
        requires width { is_width link.width ≡ true }
        requires latency { is_latency link.latency ≡ true }
        requires buffered { is_buffered link.buffered ≡ true }
        requires room { length self.old < 64 }
        ensures ok { OnOk result (self.new ≡ self.old ++ link ∷ []) }
        ensures err { OnErr result (self.new ≡ self.old) }
    {
        lawful(&link);
        self.items.push(link)?;
        Ok(())
    }
}
