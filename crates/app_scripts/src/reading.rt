//! Reading the rules of a text, one after the other.
ghost use Rattle.std.specs.Prelude.{◌≡◌, ◌≤◌, ◌<◌, ◌-◌, length, IfOk, IfErr, OnOk, true};
ghost use Rattle.text_words.specs.Words.{words};
ghost use Rattle.scene_model.specs.Limits.{most_rules};
ghost use Rattle.scene_model.specs.Ports.{names_differ};
ghost use Rattle.scene_model.specs.Rules.{runs_for};
ghost use Rattle.app_scripts.specs.Rules.{IsFaultOf, rule_beside, rules_of};

use crate::RuleFault;
use crate::forms::rule_in;
use crate::standing::fault_of;
use music_base::{Items, Nanos, Word, steps_of};
use scene_model::{MOST_RULES, PortDecl, Rule};
use std::alloc::Global;
use text_words::split_declaration;

/// The rule of a piece after the rules before it.
#[tactic(auto, unfolding(crate::specs::Rules::rule_beside))]
fn read_rule(
    alloc: Global,
    piece: &[u8],
    ports: &[PortDecl],
    tick: u64,
    lasts: u128,
    before: &[Rule],
) -> Result<Rule, RuleFault>
    requires { length before.now ≤ most_rules }
    ensures few { OnOk result (length before.now < most_rules) }
    ensures rule { IfOk result (λ rule. rule_beside ports.now tick lasts before.now (words piece.now) ≡ Ok rule) }
    ensures fault { IfErr result (IsFaultOf (rule_beside ports.now tick lasts before.now (words piece.now))) }
{
    let place = before.len() as u32 + 1;
    if before.len() >= MOST_RULES {
        return Err(RuleFault::RuleText { place });
    }
    let Some(rule) = rule_in(alloc, piece).transpose()? else {
        return Err(RuleFault::RuleText { place });
    };
    match fault_of(ports, tick, lasts, place, &rule) {
        Some(fault) => Err(fault),
        None => Ok(rule),
    }
}

/// How long an application runs from its start until its stop, in ns: its number of steps times its tick, and 0 where it does
/// not start before its stop.
#[tactic(auto, unfolding(scene_model::specs::Rules::runs_for))]
fn runs_for(start: Nanos, tick: Nanos, stop: Nanos) -> u128
    requires { 1 ≤ tick }
    ensures { result ≡ runs_for (stop - start) tick }
{
    let span = Nanos(stop.0.saturating_sub(start.0));
    u128::from(steps_of(span, tick)) * u128::from(tick.0)
}

/// The rules that the text spells, for an application of these ports that ticks each `tick` ns from its start until its
/// stop.
///
/// The text is cut at each `;`, and a piece of blanks alone is skipped and not counted. A rule has one of these forms,
/// its words separated by blanks:
///
/// - `emit P g at T` and `emit P g every t from T`, with P an event output,
/// - `pass P to Q shift s after d`, from an event input to an event output,
/// - `set C g v` and `ramp C g from v by r`, with C a continuous output,
/// - `copy D to C scale n/m add v`, from a continuous input to a continuous output,
/// - `when D g over v emit Q x`, from a continuous input to an event output,
/// - `say P word every t from T`, with P a message output,
/// - `reply P to Q after d`, from a message input to a message output.
///
/// Indices g and x are at most 65,535, times T, t and d are times in seconds, and values v and r are decimal numbers of
/// at most six digits behind the point. A shift s lies within 65,535 of zero, n within 1,000,000 of zero, and m is 1 to
/// 1,000,000. A word is 1 to 64 letters, digits, `_`, `-` or `.`.
///
/// Refused is the first faulty rule, by its place from 1, with the first of its faults: it has none of the forms or is
/// the 1,025th; a port that it names is absent or of another direction or kind; an index that it states is mapped by no
/// rank of its port; d is not less than the tick; t is 0, or the run, which lasts the number of steps times the tick,
/// holds it more than 1,000,000 times.
///
/// Start, tick and stop are in ns. The tick is at least 1 ns, and no two ports have one name.
pub fn read_rules(
    alloc: Global,
    text: &Word,
    ports: &[PortDecl],
    start: Nanos,
    tick: Nanos,
    stop: Nanos,
) -> Result<Items<Rule>, RuleFault>
    requires tick { 1 ≤ tick }
    requires names { names_differ ports.now ≡ true }
    ensures rules { IfOk result (λ rules. rules_of ports.now tick (stop - start) text.now ≡ Ok rules) }
    ensures fault { IfErr result (IsFaultOf (rules_of ports.now tick (stop - start) text.now)) }
    ensures few { IfOk result (λ rules. length rules ≤ most_rules) }
{
    let lasts = runs_for(start, tick, stop);
    let mut rules = Items::new(alloc);
    let mut rest = text.as_slice();
    while let Some((piece, others)) = split_declaration(rest) {
        rest = others;
        let rule = read_rule(alloc, piece, ports, tick.0, lasts, rules.as_slice())?;
        rules.push(rule)?;
    }
    Ok(rules)
}
