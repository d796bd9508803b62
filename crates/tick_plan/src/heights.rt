ghost use Rattle.std.specs.Prelude.{◌≡◌, ◌≤◌, pos, map, replicate, All, IfOk};
ghost use Rattle.tick_plan.specs.Bounds.{greatest_height};

use music_base::NoMemory;
use std::alloc::Global;

/// As many heights, each 0.
pub(crate) fn no_heights(alloc: Global, applications: u32) -> Result<Vec<u128>, NoMemory>
    ensures { IfOk result (λ heights. heights.items ≡ replicate applications 0) }
{
    Ok(vec![in alloc; 0; applications as usize]?)
}

/// The heights as signed numbers.
pub(crate) fn signed(alloc: Global, heights: &[u128]) -> Result<Vec<i128>, NoMemory>
    requires { All (λ h. h ≤ greatest_height) heights.now }
    ensures { IfOk result (λ potentials. potentials.items ≡ map pos heights.now) }
{
    let mut potentials = Vec::new(alloc);
    for height in heights {
        potentials.push(*height as i128)?;
    }
    Ok(potentials)
}
