//! Rules that give values: where they write, and what.
ghost use Rattle.std.specs.Prelude.{◌≡◌, ◌≤◌, ◌<◌, ◌^◌, ℕ, List, pos, ◌+ℤ◌, ◌-ℤ◌, ◌≤ℤ◌, ◌*ℤ◌, ◌==◌, true, length, drop, slice_get, slice_set, Some, None, if◌then◌else◌};
ghost use Rattle.music_base.specs.Numbers.{floor_div};
ghost use Rattle.music_base.specs.Items.{AreValues};
ghost use Rattle.music_base.specs.declared.item.Item.TheVariants.{Value};
ghost use Rattle.scene_model.specs.Turns.{saturated};
ghost use Rattle.rule_turns.specs.OneRule.{copied, found_value, gives, scaled};
ghost use Rattle.rule_turns.specs.Plans.{index_place};
ghost use Rattle.rule_turns.specs.Turning.{AreAscending, HasNumbers, IsPlacedIn, overlay, value_of};

use music_base::{Item, Sample};
use scene_model::Rule;

/// An exact value as 64 bits hold it: the nearest that they can.
#[tactic(auto, unfolding(scene_model::specs::Turns::saturated))]
fn held(exact: i128) -> Sample
    ensures { result ≡ saturated exact }
{
    Sample(exact.clamp(i128::from(i64::MIN), i128::from(i64::MAX)) as i64)
}

fn exact_ramp(start: i64, by: i64, step: u64) -> i128
    requires { step < 10 ^ 6 }
    ensures { result ≡ start +ℤ by *ℤ pos step }
{
    i128::from(start) + i128::from(by) * i128::from(step)
}

/// The value of a ramp in a step.
#[tactic(auto, unfolding(scene_model::specs::Turns::saturated))]
fn ramp(start: Sample, by: Sample, step: u64) -> Sample
    requires { step < 10 ^ 6 }
    ensures { result ≡ saturated (start +ℤ by *ℤ pos step) }
{
    match by.0.checked_mul(step as i64) {
        Some(rise) => Sample(start.0.saturating_add(rise)),
        None => held(exact_ramp(start.0, by.0, step)),
    }
}

/// How a value is copied: times the numerator, by the denominator and rounded down, and added to.
#[derive(Clone, Copy)]
struct Scale {
    numerator: i32,
    denominator: u32,
    add: Sample,
}

fn product(value: i64, numerator: i32) -> i128
    ensures { result ≡ value *ℤ numerator }
{
    i128::from(value) * i128::from(numerator)
}

fn quotient(value: i64, numerator: i32, denominator: u32) -> i128
    requires { 1 ≤ denominator }
    ensures value { result ≡ floor_div (value *ℤ numerator) denominator }
    ensures low { (pos 0 -ℤ pos (2 ^ 95)) ≤ℤ result }
    ensures high { result ≤ℤ pos (2 ^ 95) }
{
    product(value, numerator).div_euclid(i128::from(denominator))
}

fn exact_scaled(value: i64, numerator: i32, denominator: u32, add: i64) -> i128
    requires { 1 ≤ denominator }
    ensures { result ≡ floor_div (value *ℤ numerator) denominator +ℤ add }
{
    quotient(value, numerator, denominator) + i128::from(add)
}

/// A scaled value, by the 128 bits that each product fits.
#[tactic(auto, unfolding(crate::specs::OneRule::scaled))]
fn scaled_widely(value: Sample, scale: &Scale) -> Sample
    requires { 1 ≤ scale.now.denominator }
    ensures { result ≡ scaled scale.now.numerator scale.now.denominator scale.now.add value }
{
    held(exact_scaled(value.0, scale.numerator, scale.denominator, scale.add.0))
}

/// What a product of 64 bits comes to, divided and added to.
#[tactic(auto, unfolding(scene_model::specs::Turns::saturated))]
fn divided(product: i64, denominator: u32, add: Sample) -> Sample
    requires { 1 ≤ denominator }
    ensures { result ≡ saturated (floor_div product denominator +ℤ add) }
{
    let quotient = product.div_euclid(i64::from(denominator));
    Sample(quotient.saturating_add(add.0))
}

/// A scaled value. Most products fit 64 bits, where a division costs much less than in 128.
#[tactic(auto, unfolding(crate::specs::OneRule::scaled))]
fn scaled(value: Sample, scale: &Scale) -> Sample
    requires { 1 ≤ scale.now.denominator }
    ensures { result ≡ scaled scale.now.numerator scale.now.denominator scale.now.add value }
{
    match value.0.checked_mul(i64::from(scale.numerator)) {
        Some(product) => divided(product, scale.denominator, scale.add),
        None => scaled_widely(value, scale),
    }
}

/// The value at a place of a block, where that is one of this index.
pub fn value_at(block: &[Item], place: usize, index: u32) -> Option<Sample>
    ensures { result ≡ value_of index (slice_get block.now place) }
{
    match block.get(place) {
        Some(Item::Value { global, value }) => {
            if *global == index { Some(*value) } else { None }
        }
        _ => None,
    }
}

/// One value at its place.
fn set_at(items: &mut [Item], place: usize, index: u32, value: Sample)
    requires ascend { AreAscending 0 items.old }
    ensures { (gs : List ℕ) → AreValues gs items.old → place ≡ index_place gs index →
        items.new ≡ overlay (λ g. if index == g then Some value else None) items.old }
{
    if place < items.len() {
        write_value(items, place, index, value);
    }
}

/// What a search in a block came to: the value, where there is one, and the place from which the next search goes on.
#[derive(Clone, Copy)]
struct Found {
    value: Option<Sample>,
    next: usize,
}

/// The value of an index, looked for from a place of a block on. The next index that is looked for is a higher one.
fn find_from(block: &[Item], near: usize, index: u32) -> Found
    requires { AreAscending 0 block.now }
    ensures value { result.value ≡ found_value (drop near block.now) index }
    ensures next { (g : ℕ) → index < g → found_value (drop near block.now) g ≡ found_value (drop result.next block.now) g }
{
    for place in near..block.len() {
        if let Item::Value { global, value } = &block[place] {
            if *global == index {
                return Found {
                    value: Some(*value),
                    next: place + 1,
                };
            }
            if index < *global {
                return Found {
                    value: None,
                    next: place,
                };
            }
        }
    }
    Found {
        value: None,
        next: block.len(),
    }
}

fn write_value(items: &mut [Item], place: usize, global: u32, value: Sample)
    requires { place < length items.old }
    ensures { items.new ≡ slice_set items.old place (Value global value) }
{
    items[place] = Item::Value { global, value };
}

/// For each value the one of the same index in a block, scaled. Both ascend, so the block is gone through once.
fn copy_values(items: &mut [Item], block: &[Item], scale: &Scale)
    requires some { 1 ≤ scale.now.denominator }
    requires ascend { AreAscending 0 items.old }
    requires block { AreAscending 0 block.now }
    ensures { items.new ≡ overlay (copied scale.now.numerator scale.now.denominator scale.now.add block.now) items.old }
{
    let mut near = 0;
    for i in 0..items.len() {
        if let Item::Value { global, .. } = &items[i] {
            let global = *global;
            let found = find_from(block, near, global);
            near = found.next;
            if let Some(value) = found.value {
                write_value(items, i, global, scaled(value, scale));
            }
        }
    }
}

/// Each value that a rule gives in a step, in its place among the values of a port of these indices.
#[tactic(auto, unfolding(crate::specs::OneRule::gives))]
pub fn give(items: &mut [Item], rule: &Rule, place: usize, block: &[Item], step: u64)
    requires numbers { HasNumbers rule.now }
    requires step { step < 10 ^ 6 }
    requires ascend { AreAscending 0 items.old }
    requires placed { (gs : List ℕ) × AreValues gs items.old × IsPlacedIn gs block.now place rule.now }
    ensures { items.new ≡ overlay (gives block.now step rule.now) items.old }
{
    match rule {
        Rule::SetValue { index, value, .. } => set_at(items, place, *index, *value),
        Rule::Ramp {
            index,
            start,
            by,
            ..
        } => set_at(items, place, *index, ramp(*start, *by, step)),
        Rule::CopyValues {
            numerator,
            denominator,
            add,
            ..
        } => {
            let scale = Scale {
                numerator: *numerator,
                denominator: *denominator,
                add: *add,
            };
            copy_values(items, block, &scale);
        }
        _ => {}
    }
}
