//! The text of a cycle of waits.
ghost use Rattle.std.specs.Prelude.{◌≡◌, ◌<◌, ◌≤◌, ◌++◌, ◌+◌, length, map, All, IfOk, OnOk, codes};
ghost use Rattle.std.specs.Fmt.{decimal, signed_decimal};
ghost use Rattle.std.specs.List.{flat_map};
ghost use Rattle.scene_model.specs.Cover.{IsBounded, most_waits};
ghost use Rattle.music_base.specs.Lines.{ended};
ghost use Rattle.cycle_check.specs.CycleTexts.{IsBetween, cycle_text, ends_text, kind_word, link_text, name_at, sums_line, wait_line};

use crate::Cycle;
use crate::sums::{allowances, burdens};
use itoa::Buffer;
use music_base::{AppId, LinkId, NoMemory};
use scene_model::{Wait, WaitKind};
use std::alloc::Global;

fn kind_word(kind: WaitKind) -> &'static [u8]
    ensures { result.now ≡ kind_word kind }
{
    match kind {
        WaitKind::ForBlock => b"data",
        WaitKind::ForRoom => b"room",
    }
}

/// The name of an application.
fn name_at<'a>(names: &[&'a [u8]], app: AppId) -> &'a [u8]
    requires { app < length names.now }
    ensures { result.now ≡ name_at (map (λ name. name.now) names.now) app }
{
    names[app.0 as usize]
}

/// Appends who waits for whom.
fn push_ends(text: &mut Vec<u8>, names: &[&[u8]], wait: &Wait) -> Result<(), NoMemory>
    requires { IsBetween (length names.now) wait.now }
    ensures { OnOk result (text.new.items ≡ text.old.items ++ ends_text (map (λ name. name.now) names.now) wait.now) }
{
    text.extend_from_slice(name_at(names, wait.waiter))?;
    text.extend_from_slice(b" waits for ")?;
    text.extend_from_slice(name_at(names, wait.awaited))?;
    Ok(())
}

/// Appends the number of a connection, counted from 1, and what is waited for there.
fn push_link(text: &mut Vec<u8>, link: LinkId, kind: WaitKind) -> Result<(), NoMemory>
    ensures { OnOk result (text.new.items ≡ text.old.items ++ link_text link kind) }
{
    text.extend_from_slice(b": connection ")?;
    let mut digits = Buffer::new();
    text.extend_from_slice(digits.format(u64::from(link.0) + 1).as_bytes())?;
    text.extend_from_slice(b", ")?;
    text.extend_from_slice(kind_word(kind))?;
    Ok(())
}

/// Appends words and a number behind them.
fn push_labelled(text: &mut Vec<u8>, label: &[u8], number: i128) -> Result<(), NoMemory>
    ensures { OnOk result (text.new.items ≡ text.old.items ++ (label.now ++ signed_decimal number)) }
{
    text.extend_from_slice(label)?;
    let mut digits = Buffer::new();
    text.extend_from_slice(digits.format(number).as_bytes())?;
    Ok(())
}

/// Appends the line of a wait.
fn push_wait(text: &mut Vec<u8>, names: &[&[u8]], wait: &Wait) -> Result<(), NoMemory>
    requires { IsBetween (length names.now) wait.now }
    ensures { OnOk result (text.new.items ≡ text.old.items ++ ended (wait_line (map (λ name. name.now) names.now) wait.now)) }
{
    push_ends(text, names, wait)?;
    push_link(text, wait.link, wait.kind)?;
    push_labelled(text, b", allowance ", wait.allowance)?;
    push_labelled(text, b", burden ", wait.burden)?;
    text.push(b'\n')?;
    Ok(())
}

/// Appends the line of the two sums.
fn push_sums(text: &mut Vec<u8>, waits: &[Wait]) -> Result<(), NoMemory>
    requires bounded { All IsBounded waits.now }
    requires short { length waits.now ≤ most_waits }
    ensures { OnOk result (text.new.items ≡ text.old.items ++ ended (sums_line waits.now)) }
{
    let allowances = allowances(waits);
    let burdens = burdens(waits);
    push_labelled(text, b"allowances ", allowances)?;
    push_labelled(text, b", burdens ", burdens)?;
    text.push(b'\n')?;
    Ok(())
}

/// The text of a cycle that is not covered: a head, a line for each wait with its names, its connection, counted from 1,
/// what is waited for, its allowance and its burden, both in ns, and a line of the two sums.
///
/// `names` are those of the applications, in their order. Each wait is between two of these, its allowance and its burden
/// lie within 10^30 ns of zero, and there are at most 64 waits.
pub fn write_cycle(alloc: Global, names: &[&[u8]], cycle: &Cycle) -> Result<Vec<u8>, NoMemory>
    requires between { All (IsBetween (length names.now)) cycle.now.0.items }
    requires bounded { All IsBounded cycle.now.0.items }
    requires short { length cycle.now.0.items ≤ most_waits }
    ensures { IfOk result (λ text. text.items ≡ cycle_text (map (λ name. name.now) names.now) cycle.now.0.items) }
{
    let waits = cycle.0.as_slice();
    let mut text = Vec::from_slice(alloc, b"uncovered cycle\n")?;
    for wait in waits {
        push_wait(&mut text, names, wait)?;
    }
    push_sums(&mut text, waits)?;
    Ok(text)
}
