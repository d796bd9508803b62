ghost use Rattle.std.specs.Prelude.{◌≡◌, ◌+◌, ◌*◌, ◌<◌, ◌≤◌, ◌≤ℤ◌, ◌+ℤ◌, pos, length, All, IfSome, IfNone, slice_index};
ghost use Rattle.scene_model.specs.Cover.{IsWithin, greatest_number};
ghost use Rattle.scene_model.specs.Limits.{most_apps};
ghost use Rattle.tick_plan.specs.Bounds.{greatest_rise, greatest_height};
ghost use Rattle.tick_plan.specs.Heights.{rise_of, IsRelaxed};

use scene_model::Wait;

/// How far the wait raises its waiter above the application that it awaits.
pub(crate) fn rise(applications: u32, wait: &Wait) -> i128
    requires few { applications ≤ most_apps }
    requires within { IsWithin applications wait.now }
    ensures value { result ≡ rise_of applications wait.now }
    ensures high { result ≤ℤ pos greatest_rise }
    ensures low { pos 0 ≤ℤ (result +ℤ pos (2 * most_apps * greatest_number)) }
{
    1 - applications as i128 * (wait.allowance - wait.burden)
}

/// The height to which the wait raises its waiter, where that is above the height that it has.
pub(crate) fn raised_height(applications: u32, wait: &Wait, heights: &[u128]) -> Option<u128>
    requires few { applications ≤ most_apps }
    requires within { IsWithin applications wait.now }
    requires counted { length heights.now ≡ applications }
    requires low { All (λ h. h ≤ greatest_height) heights.now }
    ensures relaxed { IfNone result (IsRelaxed applications heights.now wait.now) }
    ensures height { IfSome result (λ h. pos h ≡ rise_of applications wait.now +ℤ pos (slice_index heights.now wait.now.awaited)) }
    ensures higher { IfSome result (λ h. slice_index heights.now wait.now.waiter < h) }
{
    let height = rise(applications, wait) + heights[wait.awaited.0 as usize] as i128;
    if height <= heights[wait.waiter.0 as usize] as i128 {
        None
    } else {
        Some(height as u128)
    }
}
