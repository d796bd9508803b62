//! Laws over the definition: what it says of words whose command is known by hand.
ghost use Rattle.std.specs.Prelude.{◌≡◌, [], ◌∷◌, codes};
ghost use Rattle.command_words.specs.Words.{command_of};

use crate::command::Command;

/// The commands of some words, and some words that are refused.
pub fn worked_words()
    ensures check { command_of (codes "check" ∷ []) ≡ Some Command.Check }
    ensures plan { command_of (codes "plan" ∷ []) ≡ Some Command.Plan }
    ensures order { command_of (codes "order" ∷ []) ≡ Some Command.Order }
    ensures run { command_of (codes "run" ∷ []) ≡ Some (Command.Run 1) }
    ensures workers { command_of (codes "run" ∷ codes "--workers" ∷ codes "1" ∷ [])
        ≡ Some (Command.Run 1) }
    ensures zeros_in_front { command_of (codes "run" ∷ codes "--workers=0001" ∷ [])
        ≡ Some (Command.Run 1) }
    ensures load { command_of (codes "load" ∷ codes "--number" ∷ codes "0034" ∷ [])
        ≡ Some (Command.Load 34 1) }
    ensures either_order { command_of
        (codes "load" ∷ codes "--workers=1" ∷ codes "--number=9999" ∷ [])
        ≡ Some (Command.Load 9_999 1) }

    ensures nothing { command_of [] ≡ None }
    ensures no_worker { command_of (codes "run" ∷ codes "--workers=0" ∷ []) ≡ None }
    ensures nine_workers { command_of (codes "run" ∷ codes "--workers=9" ∷ []) ≡ None }
    ensures five_digits { command_of (codes "load" ∷ codes "--number=00001" ∷ []) ≡ None }
    ensures without_number { command_of (codes "load" ∷ codes "--workers=1" ∷ []) ≡ None }
    ensures number_to_run { command_of (codes "run" ∷ codes "--number=1" ∷ []) ≡ None }
    ensures twice { command_of
        (codes "run" ∷ codes "--workers" ∷ codes "1" ∷ codes "--workers=1" ∷ [])
        ≡ None }
    ensures dashes { command_of (codes "check" ∷ codes "--" ∷ []) ≡ None }
{}
