//! Sums over waits, in ns.
ghost use Rattle.std.specs.Prelude.{◌≡◌, ◌≤◌, length, All};
ghost use Rattle.scene_model.specs.Cover.{IsBounded, allowances, burdens, most_waits};

use scene_model::Wait;

/// The sum of the allowances.
pub(crate) fn allowances(waits: &[Wait]) -> i128
    requires bounded { All IsBounded waits.now }
    requires short { length waits.now ≤ most_waits }
    ensures { result ≡ allowances waits.now }
{
    let mut sum: i128 = 0;
    for wait in waits {
        sum += wait.allowance;
    }
    sum
}

/// The sum of the burdens.
pub(crate) fn burdens(waits: &[Wait]) -> i128
    requires bounded { All IsBounded waits.now }
    requires short { length waits.now ≤ most_waits }
    ensures { result ≡ burdens waits.now }
{
    let mut sum: i128 = 0;
    for wait in waits {
        sum += wait.burden;
    }
    sum
}
