//! Writing a configuration in its canonical spelling.

ghost use Rattle.std.specs.Prelude.{◌≡◌, ◌++◌, ◌≤◌, length, map, true, IfOk, OnOk};
ghost use Rattle.std.specs.List.{flat_map};
ghost use Rattle.config_text.specs.Connections.{end_text, width_text, link_line};
ghost use Rattle.config_text.specs.Options.{latency_text, buffered_text};
ghost use Rattle.music_base.specs.Lines.{ended};
ghost use Rattle.config_text.specs.Canon.{needs_quotes, raw_value, setting_line, header_line, section_lines, canon, is_lawful_config};
ghost use Rattle.config_text.specs.Lawful.{are_settings, are_sections};
ghost use Rattle.config_text.specs.Lines.{longest_text};
ghost use Rattle.config_text.specs.Text.{Spells};

use crate::parts::{begins_with_blank, ends_with_blank, has};
use crate::{Config, LinkText, Sections, Settings};
use music_base::{Name, Nanos, NoMemory, Word, write_time};
use std::alloc::Global;

fn needs_quotes(value: &[u8]) -> bool
    ensures { result ≡ needs_quotes value.now }
{
    begins_with_blank(value) || ends_with_blank(value) || has(value, b'#')
}

fn put_value(out: &mut Vec<u8>, value: &[u8]) -> Result<(), NoMemory>
    ensures { OnOk result (out.new.items ≡ out.old.items ++ raw_value value.now) }
{
    if needs_quotes(value) {
        out.push(b'"')?;
        out.extend_from_slice(value)?;
        out.push(b'"')?;
    } else {
        out.extend_from_slice(value)?;
    }
    Ok(())
}

fn put_setting(out: &mut Vec<u8>, name: &Name, value: &Word) -> Result<(), NoMemory>
    ensures { OnOk result (out.new.items ≡ out.old.items ++ ended (setting_line (name.now, value.now))) }
{
    out.extend_from_slice(name.as_slice())?;
    out.push(b'=')?;
    put_value(out, value.as_slice())?;
    out.push(b'\n')?;
    Ok(())
}

fn put_settings(out: &mut Vec<u8>, settings: &Settings) -> Result<(), NoMemory>
    ensures text { OnOk result (out.new.items ≡ out.old.items ++ flat_map ended (map setting_line settings.now)) }
    ensures lawful { are_settings settings.now ≡ true }
{
    for place in 0..settings.len() {
        let (name, value) = settings.pair_at(place);
        put_setting(out, name, value)?;
    }
    Ok(())
}

fn put_header(out: &mut Vec<u8>, name: &Name) -> Result<(), NoMemory>
    ensures { OnOk result (out.new.items ≡ out.old.items ++ ended (header_line name.now)) }
{
    out.push(b'[')?;
    out.extend_from_slice(name.as_slice())?;
    out.extend_from_slice(b"]\n")?;
    Ok(())
}

fn put_section(out: &mut Vec<u8>, name: &Name, settings: &Settings) -> Result<(), NoMemory>
    ensures { OnOk result (out.new.items ≡ out.old.items ++ flat_map ended (section_lines (name.now, settings.now))) }
{
    put_header(out, name)?;
    put_settings(out, settings)
}

fn put_sections(out: &mut Vec<u8>, sections: &Sections) -> Result<(), NoMemory>
    ensures text { OnOk result (out.new.items ≡ out.old.items ++ flat_map ended (flat_map section_lines sections.now)) }
    ensures lawful { are_sections sections.now ≡ true }
{
    for place in 0..sections.len() {
        let (name, settings) = sections.pair_at(place);
        put_section(out, name, settings)?;
    }
    Ok(())
}

fn put_end(out: &mut Vec<u8>, app: &Name, port: &Name) -> Result<(), NoMemory>
    ensures { OnOk result (out.new.items ≡ out.old.items ++ end_text app.now port.now) }
{
    out.extend_from_slice(app.as_slice())?;
    out.push(b'.')?;
    out.extend_from_slice(port.as_slice())?;
    Ok(())
}

fn put_width(out: &mut Vec<u8>, alloc: Global, width: Option<u32>) -> Result<(), NoMemory>
    ensures { OnOk result (out.new.items ≡ out.old.items ++ width_text width) }
{
    if let Some(width) = width {
        let text = format!(in alloc; " [{width}]")?;
        out.extend_from_slice(text.as_bytes())?;
    }
    Ok(())
}

fn put_latency(out: &mut Vec<u8>, alloc: Global, latency: Option<Nanos>) -> Result<(), NoMemory>
    ensures { OnOk result (out.new.items ≡ out.old.items ++ latency_text latency) }
{
    if let Some(latency) = latency {
        out.extend_from_slice(b" latency=")?;
        let time = write_time(alloc, latency)?;
        out.extend_from_slice(time.as_slice())?;
    }
    Ok(())
}

fn put_buffered(out: &mut Vec<u8>, alloc: Global, buffered: Option<u64>) -> Result<(), NoMemory>
    ensures { OnOk result (out.new.items ≡ out.old.items ++ buffered_text buffered) }
{
    if let Some(buffered) = buffered {
        let text = format!(in alloc; " buffered={buffered}")?;
        out.extend_from_slice(text.as_bytes())?;
    }
    Ok(())
}

fn put_link(out: &mut Vec<u8>, alloc: Global, link: &LinkText) -> Result<(), NoMemory>
    ensures { OnOk result (out.new.items ≡ out.old.items ++ ended (link_line link.now)) }
{
    put_end(out, &link.from_app, &link.from_port)?;
    out.extend_from_slice(b" -> ")?;
    put_end(out, &link.to_app, &link.to_port)?;
    put_width(out, alloc, link.width)?;
    put_latency(out, alloc, link.latency)?;
    put_buffered(out, alloc, link.buffered)?;
    out.push(b'\n')?;
    Ok(())
}

fn put_links(out: &mut Vec<u8>, alloc: Global, links: &[LinkText]) -> Result<(), NoMemory>
    ensures { OnOk result (out.new.items ≡ out.old.items ++ flat_map ended (map link_line links.now)) }
{
    for link in links {
        put_link(out, alloc, link)?;
    }
    Ok(())
}

#[tactic(auto, unfolding(crate::specs::Canon::canon, crate::specs::Canon::is_lawful_config))]
fn written(alloc: Global, config: &Config) -> Result<Vec<u8>, NoMemory>
    ensures text { IfOk result (λ bytes. bytes.items ≡ canon config.now) }
    ensures lawful { IfOk result (λ _. is_lawful_config config.now ≡ true) }
{
    let mut out = Vec::new(alloc);
    put_settings(&mut out, &config.defaults)?;
    put_sections(&mut out, &config.sections)?;
    put_links(&mut out, alloc, config.links.as_slice())?;
    Ok(out)
}

/// Writes the canonical spelling of the configuration: the defaults, then each section with its line and its settings,
/// then the connections. Each line ends with LF. A value stands in quotation marks exactly where it begins or ends with a
/// blank or holds a `#`. A connection is `a.p -> b.q` and then, each where it is stated and after one space, its width
/// `[7]`, `latency=` with the canonical time, and `buffered=3`.
///
/// Where it has at most 1,048,576 bytes, `read_config` reads it as an equal configuration.
pub fn write_config(alloc: Global, config: &Config) -> Result<Vec<u8>, NoMemory>
    ensures text { IfOk result (λ bytes. bytes.items ≡ canon config.now) }
    ensures again { IfOk result (λ bytes. length bytes.items ≤ longest_text → Spells config.now bytes.items) }
{
    written(alloc, config)
}
