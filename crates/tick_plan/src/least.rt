ghost use Rattle.std.specs.Prelude.{◌≡◌, ◌≢◌, ◌^◌, ℕ, ◌*◌, ◌<◌, ◌≤◌, ◌≤ℤ◌, ◌<ℤ◌, pos, [], ◌∷◌, ◌++◌, length, All, IfOk, slice_index};
ghost use Rattle.scene_model.specs.Cover.{IsWithin, AllCovered, HasUncovered};
ghost use Rattle.scene_model.specs.Limits.{most_apps};
ghost use Rattle.scene_model.specs.Waits.{greatest_limit};
ghost use Rattle.tick_plan.specs.Bounds.{greatest_start, greatest_height};
ghost use Rattle.tick_plan.specs.Room.{IsRoomWait, need_of, room_under};

use crate::heights::no_heights;
use crate::raising::raise_all;
use crate::rising::rise;
use crate::room::RoomWait;
use music_base::{AppId, NoMemory};
use scene_model::Wait;
use std::alloc::Global;

/// Higher than all that a walk can rise.
const ABOVE_WALKS: u128 = 1_000_000_000_000_000_000_000_000;

/// How many units reach what is needed, where there is at least one.
fn least_times(need: i128, unit: u64) -> u64
    requires unit { 1 ≤ unit }
    requires need { need <ℤ pos (2 ^ 64) }
    ensures some { 1 ≤ result }
    ensures enough { need ≤ℤ pos (result * unit) }
    ensures least { (k : ℕ) → 1 ≤ k → k < result → pos (k * unit) <ℤ need }
{
    if need <= unit as i128 {
        return 1;
    }
    let need = need as u64;
    (need - 1) / unit + 1
}

/// Heights of which one, that of this application, is above all that a walk can rise. The others are 0.
fn starts_above(alloc: Global, applications: u32, app: AppId) -> Result<Vec<u128>, NoMemory>
    requires { app < applications }
    ensures counted { IfOk result (λ starts. length starts.items ≡ applications) }
    ensures high { IfOk result (λ starts. slice_index starts.items app ≡ greatest_start) }
    ensures others { IfOk result (λ starts. (v : ℕ) → v ≢ app → slice_index starts.items v ≡ 0) }
{
    let mut starts = no_heights(alloc, applications)?;
    starts[app.0 as usize] = ABOVE_WALKS;
    Ok(starts)
}

/// How far the wait would raise its waiter above a height that is above all that a walk can rise.
fn need(applications: u32, wait: &Wait, heights: &[u128]) -> i128
    requires few { applications ≤ most_apps }
    requires within { IsWithin applications wait.now }
    requires counted { length heights.now ≡ applications }
    requires top { All (λ h. h ≤ greatest_height) heights.now }
    requires start { greatest_start ≤ slice_index heights.now wait.now.waiter }
    ensures value { result ≡ need_of applications wait.now heights.now }
    ensures small { result <ℤ pos (2 ^ 64) }
{
    rise(applications, wait) + heights[wait.awaited.0 as usize] as i128
        - heights[wait.waiter.0 as usize] as i128
}

/// The least limit of 1 or more with which every cycle of the waits and of the wait for room is covered.
///
/// The waiter starts above all that a walk can rise. So where a walk leads from the awaited application to it, the awaited
/// one's height tells how far such walks rise at most, and with the wait itself what the limit has to make up for.
pub(crate) fn least_limit(
    alloc: Global,
    applications: u32,
    waits: &[Wait],
    room: &RoomWait,
) -> Result<u64, NoMemory>
    requires few { applications ≤ most_apps }
    requires within { All (IsWithin applications) waits.now }
    requires room { IsRoomWait applications room.now }
    requires covered { AllCovered waits.now }
    ensures some { IfOk result (λ m. 1 ≤ m) }
    ensures below { IfOk result (λ m. m < greatest_limit) }
    ensures covered { IfOk result (λ m. AllCovered (waits.now ++ room_under room.now m ∷ [])) }
    ensures least { IfOk result (λ m. (k : ℕ) → 1 ≤ k → k < m → HasUncovered (waits.now ++ room_under room.now k ∷ [])) }
{
    let mut heights = starts_above(alloc, applications, room.without_room.waiter)?;
    raise_all(applications, waits, &mut heights);
    let need = need(applications, &room.without_room, &heights);
    Ok(least_times(need, applications as u64 * room.step))
}
