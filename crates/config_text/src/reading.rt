//! Reading a text, once from front to back.

ghost use Rattle.std.specs.Prelude.{◌≡◌, ◌≢◌, ℕ, ◌<◌, ◌++◌, ◌∷◌, [], length, IfOk, IfErr, OnOk, Ok, None, Some, is_some, not, nat_le, true, false};
ghost use Rattle.music_base.specs.Names.{is_name};
ghost use Rattle.config_text.specs.Parts.{is_value};
ghost use Rattle.config_text.specs.Connections.{is_link, is_width};
ghost use Rattle.config_text.specs.Contents.{content_of, is_lawful, section, setting, connection};
ghost use Rattle.config_text.specs.Pairs.{value_of, last_value, onto_last};
ghost use Rattle.config_text.specs.Text.{Spells, IsFaultOf, fault_beside, open_settings, section_fault, link_fault};
ghost use Rattle.config_text.specs.Inner.{seen, link_of, with_content, with_line, with_setting, OnKind, Adds, at_line};
ghost use Rattle.config_text.specs.declared.text_fault.TextFault.TheVariants.{At};
ghost use Rattle.config_text.specs.declared.reading.LineFault.TheVariants.{Memory};

use crate::connection::Connection;
use crate::content::{LentContent, content_of};
use crate::lines::{LONGEST_TEXT, split_line};
use crate::{Config, LinkText, Settings, TextFault, TextKind};
use music_base::{MOST_APPS, MOST_LINKS, Name, Nanos, NoMemory, Word};
use std::alloc::Global;

/// Why a line was not read into the configuration.
#[derive(Clone, Copy)]
pub enum LineFault {
    Fault(TextKind),
    Memory,
}

impl From<NoMemory> for LineFault {
    ghost from_gives = { λ _ e. e ≡ Memory };

    fn from(_: NoMemory) -> LineFault {
        LineFault::Memory
    }
}

fn section_fault(config: &Config, name: &Name) -> Option<TextKind>
    ensures { result ≡ section_fault config.now name.now }
{
    if config.sections.contains(name) {
        Some(TextKind::RepeatedSection)
    } else if config.sections.len() >= MOST_APPS {
        Some(TextKind::TooManySections)
    } else {
        None
    }
}

fn link_fault(config: &Config) -> Option<TextKind>
    ensures { result ≡ link_fault config.now }
{
    if config.links.len() >= MOST_LINKS {
        Some(TextKind::TooManyLinks)
    } else {
        None
    }
}

fn add_section(config: &mut Config, alloc: Global, name: &[u8]) -> Result<(), LineFault>
    requires { is_name name.now ≡ true }
    ensures ok { OnOk result (Adds config.old (Ok (section name.now)) config.new) }
    ensures fault { IfErr result (λ e. OnKind e (λ kind. fault_beside config.old (Ok (section name.now)) ≡ Some kind)) }
{
    let name = Name::from_slice(alloc, name)?;
    if let Some(kind) = section_fault(config, &name) {
        return Err(LineFault::Fault(kind));
    }
    // The section above gets no further setting.
    config.sections.shrink_last();
    config.sections.push(name, Settings::new(alloc))?;
    Ok(())
}

// Puts a setting where the last section line has it, and tells whether its name is new there.
fn insert_setting(config: &mut Config, name: Name, value: Word) -> Result<bool, NoMemory>
    requires { is_value value ≡ true }
    ensures fresh { IfOk result (λ fresh. fresh ≡ not (is_some (value_of (open_settings config.old) name))) }
    ensures added { IfOk result (λ fresh. fresh ≡ true → config.new ≡ with_setting config.old (name, value) config.old.sections) }
{
    if config.sections.is_empty() {
        config.defaults.insert(name, value)
    } else {
        config.sections.insert_setting(name, value)
    }
}

fn add_setting(
    config: &mut Config,
    alloc: Global,
    name: &[u8],
    value: &[u8],
) -> Result<(), LineFault>
    requires name { is_name name.now ≡ true }
    requires value { is_value value.now ≡ true }
    ensures ok { OnOk result (Adds config.old (Ok (setting name.now value.now)) config.new) }
    ensures fault { IfErr result (λ e. OnKind e (λ kind. fault_beside config.old (Ok (setting name.now value.now)) ≡ Some kind)) }
{
    let name = Name::from_slice(alloc, name)?;
    let value = Word::from_slice(alloc, value)?;
    if insert_setting(config, name, value)? {
        Ok(())
    } else {
        Err(LineFault::Fault(TextKind::RepeatedSetting))
    }
}

// The connection, with names that have memory of their own.
fn link_text(alloc: Global, lent: Connection<'_>) -> Result<LinkText, NoMemory>
    requires { is_link (link_of lent) ≡ true }
    ensures { IfOk result (λ link. link ≡ link_of lent.entry) }
{
    let from_app = Name::from_slice(alloc, lent.from.app)?;
    let from_port = Name::from_slice(alloc, lent.from.port)?;
    let to_app = Name::from_slice(alloc, lent.to.app)?;
    let to_port = Name::from_slice(alloc, lent.to.port)?;
    Ok(LinkText {
        from_app,
        from_port,
        to_app,
        to_port,
        width: lent.width,
        latency: lent.options.latency.map(|time| Nanos(time)),
        buffered: lent.options.buffered,
    })
}

fn add_link(config: &mut Config, alloc: Global, lent: Connection<'_>) -> Result<(), LineFault>
    requires { is_link (link_of lent) ≡ true }
    ensures ok { OnOk result (Adds config.old (Ok (connection (link_of lent.entry))) config.new) }
    ensures fault { IfErr result (λ e. OnKind e (λ kind. fault_beside config.old (Ok (connection (link_of lent.entry))) ≡ Some kind)) }
{
    if let Some(kind) = link_fault(config) {
        return Err(LineFault::Fault(kind));
    }
    let link = link_text(alloc, lent)?;
    config.links.push(link)?;
    Ok(())
}

fn add_line(config: &mut Config, alloc: Global, line: LentContent<'_>) -> Result<(), LineFault>
    requires { is_lawful (seen line) ≡ true }
    ensures ok { OnOk result (Adds config.old (Ok (seen line.entry)) config.new) }
    ensures fault { IfErr result (λ e. OnKind e (λ kind. fault_beside config.old (Ok (seen line.entry)) ≡ Some kind)) }
{
    match line {
        LentContent::Blank => Ok(()),
        LentContent::Section(name) => add_section(config, alloc, name),
        LentContent::Setting(name, value) => add_setting(config, alloc, name, value),
        LentContent::Connection(lent) => add_link(config, alloc, lent),
    }
}

/// Reads one more line into the configuration.
fn read_line(config: &mut Config, alloc: Global, line: &[u8]) -> Result<(), LineFault>
    ensures ok { OnOk result (Adds config.old (content_of line.now) config.new) }
    ensures fault { IfErr result (λ e. OnKind e (λ kind. fault_beside config.old (content_of line.now) ≡ Some kind)) }
{
    match content_of(line) {
        Ok(content) => add_line(config, alloc, content),
        Err(kind) => Err(LineFault::Fault(kind)),
    }
}

/// The fault of a line, at its place.
fn at_line(line: u64, fault: LineFault) -> TextFault
    ensures { result ≡ at_line line fault }
{
    match fault {
        LineFault::Memory => TextFault::Memory,
        LineFault::Fault(kind) => TextFault::At { line, kind },
    }
}

/// Reads the one configuration that the bytes spell.
///
/// Lines end with LF, or with CR and LF. Blanks at both ends of a line and a comment, which runs from a `#` outside
/// quotation marks, are dropped. What is left is nothing, `[NAME]`, `NAME=VALUE` or a connection, from its sender as
/// `NAME.NAME -> NAME.NAME [WIDTH] latency=TIME buffered=COUNT`, or from its receiver with `<-`. The width in its brackets
/// and each option may be absent, the options may stand in either order, and blanks may stand between the parts. A value
/// may stand in quotation marks.
///
/// Where the bytes spell none, the answer is the first faulty line, counted from 1, with its first fault. A text of more
/// than 1,048,576 bytes is `TooLong` at line 0, and nothing of it is looked at. The text is gone through once, in time
/// that is linear in its bytes.
pub fn read_config(alloc: Global, bytes: &[u8]) -> Result<Config, TextFault>
    ensures spelled { IfOk result (λ config. Spells config bytes.now) }
    ensures faulty { IfErr result (IsFaultOf bytes.now) }
{
    if bytes.len() > LONGEST_TEXT {
        return Err(TextFault::At {
            line: 0,
            kind: TextKind::TooLong,
        });
    }
    let mut config = Config::new(alloc);
    let mut line = 0u64;
    let mut rest = bytes;
    while !rest.is_empty() {
        let (first, others) = split_line(rest);
        rest = others;
        line += 1;
        match read_line(&mut config, alloc, first) {
            Ok(()) => {}
            Err(fault) => return Err(at_line(line, fault)),
        }
    }
    Ok(config)
}
