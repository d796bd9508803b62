//! What holds of every time text. Nothing here runs.
ghost use Rattle.std.specs.Prelude.{◌≡◌, ◌↔◌, ◌≤◌, ◌^◌, ℕ, List, [], codes};
ghost use Rattle.music_base.specs.Times.{time_value, greatest_time};
ghost use Rattle.music_base.specs.TimeTexts.{SpellsTime, HasTimeFault};
ghost use Rattle.music_base.specs.declared.times.TimeFault.{TimeFault};

/// A text has a time exactly where it is spelled by the parts of one, and each refusal has exactly its own reason.
pub fn times_are_as_spelled()
    ensures times { (bytes : List ℕ) (nanos : ℕ) → ((time_value bytes ≡ Ok nanos) ↔ (SpellsTime bytes nanos × (nanos ≤ greatest_time))) }
    ensures faults { (bytes : List ℕ) (fault : TimeFault) → ((time_value bytes ≡ Err fault) ↔ HasTimeFault bytes fault) }
{}

/// Times that were worked out beforehand.
#[tactic(auto, unfolding(crate::specs::Times::time_value, crate::specs::Times::scaled))]
pub fn worked_times()
    ensures exponent { time_value (codes "1e-3") ≡ Ok 1000000 }
    ensures no_whole { time_value (codes ".5") ≡ Ok 500000000 }
    ensures all_parts { time_value (codes "1.50e0") ≡ Ok 1500000000 }
    ensures point_last { time_value (codes "2.") ≡ Ok 2000000000 }
    ensures nothing { time_value (codes "0e-99") ≡ Ok 0 }
    ensures one_nano { time_value (codes "1E-9") ≡ Ok 1 }
    ensures greatest { time_value (codes "1000000") ≡ Ok (10 ^ 15) }
    ensures too_great { time_value (codes "1000001") ≡ Err TimeFault.Range }
    ensures far_too_great { time_value (codes "1e+999") ≡ Err TimeFault.Range }
    ensures part_of_a_nano { time_value (codes "1e-10") ≡ Err TimeFault.NotWhole }
    ensures far_too_small { time_value (codes "7e-999") ≡ Err TimeFault.NotWhole }
    ensures empty { time_value [] ≡ Err TimeFault.Spelling }
    ensures no_digit { time_value (codes ".") ≡ Err TimeFault.Spelling }
    ensures no_exponent { time_value (codes "1e") ≡ Err TimeFault.Spelling }
    ensures sign_in_front { time_value (codes "-1") ≡ Err TimeFault.Spelling }
    ensures four_digits { time_value (codes "1e0001") ≡ Err TimeFault.Spelling }
    ensures too_long { time_value (codes "0000000000000000000000000000001") ≡ Err TimeFault.Spelling }
{}
