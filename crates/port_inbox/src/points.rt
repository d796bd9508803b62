//! Values of many indices at one time.
ghost use Rattle.std.specs.Prelude.{◌≡◌, ◌+◌, ◌^◌, ◌<◌, ◌≤◌, ◌%◌, ℕ, pos, ◌+ℤ◌, ◌-ℤ◌, ◌*ℤ◌, IfSome, if◌then◌else◌, length, map};
ghost use Rattle.music_base.specs.Numbers.{floor_div};
ghost use Rattle.music_base.specs.Items.{AreValues};
ghost use Rattle.music_base.specs.declared.item.Item.TheVariants.{Value};
ghost use Rattle.scene_model.specs.Tables.{value_in};
ghost use Rattle.port_inbox.specs.KeptSamples.{AreIndices, AreKept, IsKept, sample_kept, value_kept};
ghost use Rattle.port_inbox.specs.Samples.{IsPlaceOf, point, point_between};

use crate::kept_sample::{KeptSample, behind, place_of, search_place, stands_at, value_placed};
use crate::kept_samples::KeptSamples;
use crate::parts::between;
use crate::value_lists::write_value;
use music_base::Item;

/// How much of a tick is gone behind the last sample that is not later. A held value has no use for it.
pub fn weight_of(interpolate: bool, late: u64, tick: u64) -> u64
    requires { 1 ≤ tick }
    ensures weight { result ≡ (if interpolate then late % tick else 0) }
    ensures below { result < tick }
{
    if interpolate { late % tick } else { 0 }
}

/// The value that a kept block, if there is one, has of an index that stands at a place of the sender's indices, else 0.
fn value_kept(kept: Option<&KeptSample>, indices: &[u32], global: u32, place: Option<usize>) -> i64
    requires kept { IfSome kept (λ kept. IsKept indices.now kept.now) }
    requires ascend { AreIndices indices.now }
    requires place { IsPlaceOf indices.now global place }
    ensures { result ≡ value_kept kept.entry global }
{
    match kept {
        Some(kept) => kept.value(indices, global, place),
        None => 0,
    }
}

/// The value of an index in the first block, or the point between it and that in the next one where that has a weight.
fn point(
    first: Option<&KeptSample>,
    next: Option<&KeptSample>,
    weight: u64,
    tick: u64,
    indices: &[u32],
    global: u32,
    place: Option<usize>,
) -> i64
    requires first { IfSome first (λ kept. IsKept indices.now kept.now) }
    requires next { IfSome next (λ kept. IsKept indices.now kept.now) }
    requires ascend { AreIndices indices.now }
    requires place { IsPlaceOf indices.now global place }
    requires weight { weight < tick }
    requires tick { tick ≤ 10 ^ 12 }
    ensures { result ≡ point_between (value_kept first.entry global) (value_kept next.entry global) tick weight }
{
    let value = value_kept(first, indices, global, place);
    if weight == 0 {
        return value;
    }
    between(
        value,
        value_kept(next, indices, global, place),
        weight,
        tick,
    )
}

/// The values of a kept block that is known to hold one for each of the sender's indices, in their order.
fn regular<'a>(kept: Option<&'a KeptSample>, indices: &[u32]) -> Option<&'a [Item]>
    requires kept { IfSome kept (λ kept. IsKept indices.now kept.now) }
    ensures values { IfSome result (λ values. AreValues indices.now values.now) }
    ensures same { IfSome result (λ values. (g : ℕ) → value_kept kept.entry g ≡ value_in values.now g) }
{
    match kept {
        Some(kept) => kept.regular(indices),
        None => None,
    }
}

/// The value of an index in one block, and from where on the next index is looked for. This one is looked for at a place
/// where it mostly stands, and only then by a search.
fn held(values: &[Item], indices: &[u32], from: usize, global: u32) -> (i64, usize)
    requires values { AreValues indices.now values.now }
    requires ascend { AreIndices indices.now }
    ensures { result.0 ≡ value_in values.now global }
{
    if stands_at(indices, from, global) {
        let value = value_placed(values, indices, global, Some(from));
        return (value, from.wrapping_add(1));
    }
    let place = search_place(indices, from, global);
    let value = value_placed(values, indices, global, place);
    (value, behind(place, from))
}

/// The value of each of these indices in one block, by places.
fn fill_held(values: &[Item], indices: &[u32], globals: &[u32], items: &mut [Item])
    requires values { AreValues indices.now values.now }
    requires ascend { AreIndices indices.now }
    requires room { length items.old ≡ length globals.now }
    ensures { items.new ≡ map (λ g. Value g (value_in values.now g)) globals.now }
{
    let mut from = 0;
    for i in 0..globals.len() {
        let (value, after) = held(values, indices, from, globals[i]);
        write_value(items, i, globals[i], value);
        from = after;
    }
}

/// The point of an index between two blocks, and from where on the next index is looked for, as `held` does.
fn point_between(
    first: &[Item],
    next: &[Item],
    weight: u64,
    tick: u64,
    indices: &[u32],
    from: usize,
    global: u32,
) -> (i64, usize)
    requires first { AreValues indices.now first.now }
    requires next { AreValues indices.now next.now }
    requires ascend { AreIndices indices.now }
    requires weight { weight < tick }
    requires tick { tick ≤ 10 ^ 12 }
    ensures { result.0 ≡ value_in first.now global +ℤ floor_div ((value_in next.now global -ℤ value_in first.now global) *ℤ pos weight) tick }
{
    let (value, after) = held(first, indices, from, global);
    let (later, _) = held(next, indices, from, global);
    (between(value, later, weight, tick), after)
}

/// The point of each of these indices between two blocks, by places.
fn fill_between(
    first: &[Item],
    next: &[Item],
    weight: u64,
    tick: u64,
    indices: &[u32],
    globals: &[u32],
    items: &mut [Item],
)
    requires first { AreValues indices.now first.now }
    requires next { AreValues indices.now next.now }
    requires ascend { AreIndices indices.now }
    requires weight { weight < tick }
    requires tick { tick ≤ 10 ^ 12 }
    requires room { length items.old ≡ length globals.now }
    ensures { items.new ≡ map (λ g. Value g (value_in first.now g +ℤ floor_div ((value_in next.now g -ℤ value_in first.now g) *ℤ pos weight) tick)) globals.now }
{
    let mut from = 0;
    for i in 0..globals.len() {
        let (value, after) = point_between(first, next, weight, tick, indices, from, globals[i]);
        write_value(items, i, globals[i], value);
        from = after;
    }
}

/// The point of each of these indices, whatever the blocks are.
fn fill_any(
    first: Option<&KeptSample>,
    next: Option<&KeptSample>,
    weight: u64,
    tick: u64,
    indices: &[u32],
    globals: &[u32],
    items: &mut [Item],
)
    requires first { IfSome first (λ kept. IsKept indices.now kept.now) }
    requires next { IfSome next (λ kept. IsKept indices.now kept.now) }
    requires ascend { AreIndices indices.now }
    requires weight { weight < tick }
    requires tick { tick ≤ 10 ^ 12 }
    requires room { length items.old ≡ length globals.now }
    ensures { items.new ≡ map (λ g. Value g (point_between (value_kept first.entry g) (value_kept next.entry g) tick weight)) globals.now }
{
    let mut from = 0;
    for i in 0..globals.len() {
        let place = place_of(indices, from, globals[i]);
        from = behind(place, from);
        let value = point(first, next, weight, tick, indices, globals[i], place);
        write_value(items, i, globals[i], value);
    }
}

/// The points of these indices, in their order, in a list of so many items. The blocks are looked up once. Where they hold
/// one value for each of the sender's indices, they are read by places.
pub fn fill_points(
    samples: &KeptSamples,
    k: u64,
    weight: u64,
    tick: u64,
    globals: &[u32],
    items: &mut [Item],
)
    requires kept { AreKept samples.now }
    requires count { k < 2 ^ 63 }
    requires weight { weight < tick }
    requires tick { tick ≤ 10 ^ 12 }
    requires room { length items.old ≡ length globals.now }
    ensures { items.new ≡ map (λ g. Value g (point (sample_kept samples.now g) tick k weight)) globals.now }
{
    let indices = samples.indices.as_slice();
    let first = samples.at(k);
    let next = samples.at(k + 1);
    if let Some(values) = regular(first, indices) {
        if weight == 0 {
            return fill_held(values, indices, globals, items);
        }
        if let Some(nexts) = regular(next, indices) {
            return fill_between(values, nexts, weight, tick, indices, globals, items);
        }
    }
    fill_any(first, next, weight, tick, indices, globals, items);
}
