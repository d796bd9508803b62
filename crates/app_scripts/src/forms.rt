//! The nine forms of a rule, by its first word. `text` is what stands behind that word.
ghost use Rattle.std.specs.Prelude.{◌≡◌, true, IfOk};
ghost use Rattle.std.specs.Option.{option_or};
ghost use Rattle.music_base.specs.Names.{is_name};
ghost use Rattle.text_words.specs.Words.{words};
ghost use Rattle.app_scripts.specs.Forms.{
  IsRead,
  copy_values,
  emit_at,
  emit_every,
  pass,
  ramp,
  reply,
  rule_in,
  say,
  set_value,
  when_over,
};

use crate::words::{
    fixed_after, index_first, last_fixed, last_fixed_after, last_index, last_time_after,
    message_first, name_after, name_first, scale_after, shift_after, time_after,
};
use music_base::{Name, Nanos, NoMemory, Sample, Word};
use scene_model::Rule;
use std::alloc::Global;
use text_words::{is_key, split_word};

/// A rule that was read, or the want of memory for it.
type Read = Result<Rule, NoMemory>;

/// The names of an input and an output.
fn names(alloc: Global, input: &[u8], output: &[u8]) -> Result<(Name, Name), NoMemory>
    requires input { is_name input.now ≡ true }
    requires output { is_name output.now ≡ true }
    ensures { IfOk result (λ names. names ≡ (input.now, output.now)) }
{
    let input = Name::from_slice(alloc, input)?;
    let output = Name::from_slice(alloc, output)?;
    Ok((input, output))
}

/// The name of a port and the word that it puts out.
fn said(alloc: Global, port: &[u8], word: &[u8]) -> Result<(Name, Word), NoMemory>
    requires { is_name port.now ≡ true }
    ensures { IfOk result (λ said. said ≡ (port.now, word.now)) }
{
    let port = Name::from_slice(alloc, port)?;
    let word = Word::from_slice(alloc, word)?;
    Ok((port, word))
}

/// `emit PORT INDEX at TIME` or `emit PORT INDEX every EVERY from FIRST`
#[tactic(auto, unfolding(crate::specs::Forms::emit_at, crate::specs::Forms::emit_every))]
fn emit(alloc: Global, text: &[u8]) -> Option<Read>
    ensures { IsRead (option_or (emit_at (words text.now)) (emit_every (words text.now))) result }
{
    let (port, rest) = name_first(text)?;
    let (index, rest) = index_first(rest)?;
    if let Some(time) = last_time_after(b"at", rest) {
        let port = Name::from_slice(alloc, port);
        return Some(port.map(|port| Rule::EmitAt { port, index, time }));
    }
    let (every, rest) = time_after(b"every", rest)?;
    let first = last_time_after(b"from", rest)?;
    let port = Name::from_slice(alloc, port);
    Some(port.map(|port| Rule::EmitEvery {
        port,
        index,
        every: Nanos(every),
        first,
    }))
}

/// `pass INPUT to OUTPUT shift SHIFT after AFTER`
#[tactic(auto, unfolding(crate::specs::Forms::pass))]
fn pass(alloc: Global, text: &[u8]) -> Option<Read>
    ensures { IsRead (pass (words text.now)) result }
{
    let (input, rest) = name_first(text)?;
    let (output, rest) = name_after(b"to", rest)?;
    let (shift, rest) = shift_after(b"shift", rest)?;
    let after = last_time_after(b"after", rest)?;
    let names = names(alloc, input, output);
    Some(names.map(|(input, output)| Rule::Pass {
        input,
        output,
        shift,
        after,
    }))
}

/// `set PORT INDEX VALUE`
#[tactic(auto, unfolding(crate::specs::Forms::set_value))]
fn set_value(alloc: Global, text: &[u8]) -> Option<Read>
    ensures { IsRead (set_value (words text.now)) result }
{
    let (port, rest) = name_first(text)?;
    let (index, rest) = index_first(rest)?;
    let value = last_fixed(rest)?;
    let port = Name::from_slice(alloc, port);
    Some(port.map(|port| Rule::SetValue { port, index, value }))
}

/// `ramp PORT INDEX from START by BY`
#[tactic(auto, unfolding(crate::specs::Forms::ramp))]
fn ramp(alloc: Global, text: &[u8]) -> Option<Read>
    ensures { IsRead (ramp (words text.now)) result }
{
    let (port, rest) = name_first(text)?;
    let (index, rest) = index_first(rest)?;
    let (start, rest) = fixed_after(b"from", rest)?;
    let by = last_fixed_after(b"by", rest)?;
    let port = Name::from_slice(alloc, port);
    Some(port.map(|port| Rule::Ramp {
        port,
        index,
        start: Sample(start),
        by,
    }))
}

/// `copy INPUT to OUTPUT scale NUMERATOR/DENOMINATOR add ADD`
#[tactic(auto, unfolding(crate::specs::Forms::copy_values))]
fn copy_values(alloc: Global, text: &[u8]) -> Option<Read>
    ensures { IsRead (copy_values (words text.now)) result }
{
    let (input, rest) = name_first(text)?;
    let (output, rest) = name_after(b"to", rest)?;
    let ((numerator, denominator), rest) = scale_after(b"scale", rest)?;
    let add = last_fixed_after(b"add", rest)?;
    let names = names(alloc, input, output);
    Some(names.map(|(input, output)| Rule::CopyValues {
        input,
        output,
        numerator,
        denominator,
        add,
    }))
}

/// `when INPUT INDEX over OVER emit OUTPUT EMITTED`
#[tactic(auto, unfolding(crate::specs::Forms::when_over))]
fn when_over(alloc: Global, text: &[u8]) -> Option<Read>
    ensures { IsRead (when_over (words text.now)) result }
{
    let (input, rest) = name_first(text)?;
    let (index, rest) = index_first(rest)?;
    let (over, rest) = fixed_after(b"over", rest)?;
    let (output, rest) = name_after(b"emit", rest)?;
    let emitted = last_index(rest)?;
    let names = names(alloc, input, output);
    Some(names.map(|(input, output)| Rule::When {
        input,
        index,
        over: Sample(over),
        output,
        emitted,
    }))
}

/// `say PORT WORD every EVERY from FIRST`
#[tactic(auto, unfolding(crate::specs::Forms::say))]
fn say(alloc: Global, text: &[u8]) -> Option<Read>
    ensures { IsRead (say (words text.now)) result }
{
    let (port, rest) = name_first(text)?;
    let (word, rest) = message_first(rest)?;
    let (every, rest) = time_after(b"every", rest)?;
    let first = last_time_after(b"from", rest)?;
    Some(said(alloc, port, word).map(|(port, word)| Rule::Say {
        port,
        word,
        every: Nanos(every),
        first,
    }))
}

/// `reply INPUT to OUTPUT after AFTER`
#[tactic(auto, unfolding(crate::specs::Forms::reply))]
fn reply(alloc: Global, text: &[u8]) -> Option<Read>
    ensures { IsRead (reply (words text.now)) result }
{
    let (input, rest) = name_first(text)?;
    let (output, rest) = name_after(b"to", rest)?;
    let after = last_time_after(b"after", rest)?;
    let names = names(alloc, input, output);
    Some(names.map(|(input, output)| Rule::Reply {
        input,
        output,
        after,
    }))
}

/// The rule that the words of a piece spell. `None` where they have none of the forms.
#[tactic(auto, unfolding(crate::specs::Forms::rule_in))]
pub fn rule_in(alloc: Global, piece: &[u8]) -> Option<Read>
    ensures { IsRead (rule_in (words piece.now)) result }
{
    let (key, rest) = split_word(piece)?;
    if is_key(key, b"emit") {
        emit(alloc, rest)
    } else if is_key(key, b"pass") {
        pass(alloc, rest)
    } else if is_key(key, b"set") {
        set_value(alloc, rest)
    } else if is_key(key, b"ramp") {
        ramp(alloc, rest)
    } else if is_key(key, b"copy") {
        copy_values(alloc, rest)
    } else if is_key(key, b"when") {
        when_over(alloc, rest)
    } else if is_key(key, b"say") {
        say(alloc, rest)
    } else if is_key(key, b"reply") {
        reply(alloc, rest)
    } else {
        None
    }
}
