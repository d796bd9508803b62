ghost use Rattle.std.specs.Prelude.{◌≡◌, IfOk};

use music_base::{Name, Nanos, NoMemory, Sample, TryCopy, Word};
use std::alloc::Global;

/// A rule of an application: what it puts out in a step, given what its inputs read.
///
/// Ports are named by their names in the application, indices are global, times are in ns and values in millionths.
#[derive(Debug, Drop)]
pub enum Rule {
    /// `emit PORT INDEX at TIME`: one event, at this time.
    EmitAt {
        port: Name,
        index: u32,
        time: Nanos,
    },
    /// `emit PORT INDEX every EVERY from FIRST`: an event at the first time and then after each period.
    EmitEvery {
        port: Name,
        index: u32,
        every: Nanos,
        first: Nanos,
    },
    /// `pass INPUT to OUTPUT shift SHIFT after AFTER`: each arrival again, at the step's clock and so much after it,
    /// with its index shifted.
    Pass {
        input: Name,
        output: Name,
        shift: i32,
        after: Nanos,
    },
    /// `set PORT INDEX VALUE`: the index always has this value.
    SetValue {
        port: Name,
        index: u32,
        value: Sample,
    },
    /// `ramp PORT INDEX from START by BY`: the index begins with a value and gains so much at each step.
    Ramp {
        port: Name,
        index: u32,
        start: Sample,
        by: Sample,
    },
    /// `copy INPUT to OUTPUT scale NUMERATOR/DENOMINATOR add ADD`: each index that both map has the input's value,
    /// scaled, rounded down and added to.
    CopyValues {
        input: Name,
        output: Name,
        numerator: i32,
        denominator: u32,
        add: Sample,
    },
    /// `when INPUT INDEX over OVER emit OUTPUT EMITTED`: an event in each step in which the input's value has come to
    /// be above this one.
    When {
        input: Name,
        index: u32,
        over: Sample,
        output: Name,
        emitted: u32,
    },
    /// `say PORT WORD every EVERY from FIRST`: a message at the first time and then after each period.
    Say {
        port: Name,
        word: Word,
        every: Nanos,
        first: Nanos,
    },
    /// `reply INPUT to OUTPUT after AFTER`: each message's word again, at the step's clock and so much after it.
    Reply {
        input: Name,
        output: Name,
        after: Nanos,
    },
}

/// The names of the input and of the output of a rule that has both.
fn names(alloc: Global, input: &Name, output: &Name) -> Result<(Name, Name), NoMemory>
    ensures { IfOk result (λ names. (names.0 ≡ input.now) × (names.1 ≡ output.now)) }
{
    let input = input.copy(alloc)?;
    Ok((input, output.copy(alloc)?))
}

impl TryCopy for Rule {
    fn copy(&self, alloc: Global) -> Result<Rule, NoMemory> {
        Ok(match self {
            Rule::EmitAt { port, index, time } => Rule::EmitAt {
                port: port.copy(alloc)?,
                index: *index,
                time: *time,
            },
            Rule::EmitEvery {
                port,
                index,
                every,
                first,
            } => Rule::EmitEvery {
                port: port.copy(alloc)?,
                index: *index,
                every: *every,
                first: *first,
            },
            Rule::Pass {
                input,
                output,
                shift,
                after,
            } => {
                let (input, output) = names(alloc, input, output)?;
                Rule::Pass {
                    input,
                    output,
                    shift: *shift,
                    after: *after,
                }
            }
            Rule::SetValue { port, index, value } => Rule::SetValue {
                port: port.copy(alloc)?,
                index: *index,
                value: *value,
            },
            Rule::Ramp {
                port,
                index,
                start,
                by,
            } => Rule::Ramp {
                port: port.copy(alloc)?,
                index: *index,
                start: *start,
                by: *by,
            },
            Rule::CopyValues {
                input,
                output,
                numerator,
                denominator,
                add,
            } => {
                let (input, output) = names(alloc, input, output)?;
                Rule::CopyValues {
                    input,
                    output,
                    numerator: *numerator,
                    denominator: *denominator,
                    add: *add,
                }
            }
            Rule::When {
                input,
                index,
                over,
                output,
                emitted,
            } => {
                let (input, output) = names(alloc, input, output)?;
                Rule::When {
                    input,
                    index: *index,
                    over: *over,
                    output,
                    emitted: *emitted,
                }
            }
            Rule::Say {
                port,
                word,
                every,
                first,
            } => Rule::Say {
                port: port.copy(alloc)?,
                word: word.copy(alloc)?,
                every: *every,
                first: *first,
            },
            Rule::Reply {
                input,
                output,
                after,
            } => {
                let (input, output) = names(alloc, input, output)?;
                Rule::Reply {
                    input,
                    output,
                    after: *after,
                }
            }
        })
    }
}
