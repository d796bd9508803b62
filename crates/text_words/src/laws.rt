ghost use Rattle.std.specs.Prelude.{◌≡◌, ℕ, [], ◌∷◌, ◌++◌, List, Some, None, Result, Ok, Err, pos, neg_ℤ, codes};
ghost use Rattle.music_base.specs.Blanks.{tab};
ghost use Rattle.text_words.specs.Words.{words, declarations};
ghost use Rattle.music_base.specs.Counts.{count_up_to};
ghost use Rattle.text_words.specs.Numbers.{signed_within, fixed};
ghost use Rattle.text_words.specs.InTurn.{in_turn, IsFirst};

/// Reading in turn fails with a fault exactly where some place is the first faulty one, with this fault.
pub fn first_faults<A, B, E>()
    ensures one_is_first { (read : List B → A → Result B E) (xs : List A) (e : E) → in_turn read [] xs ≡ Err e → (i : ℕ) × (ys : List B) × IsFirst read xs i ys e }
    ensures first_ends_it { (read : List B → A → Result B E) (xs : List A) (i : ℕ) (ys : List B) (e : E) → IsFirst read xs i ys e → in_turn read [] xs ≡ Err e }
{}

/// What a few small texts spell.
pub fn small_texts()
    ensures two_words { words (codes " a  bc ") ≡ codes "a" ∷ codes "bc" ∷ [] }
    ensures tabs_part_words { words (codes "a" ++ tab ∷ codes "b") ≡ codes "a" ∷ codes "b" ∷ [] }
    ensures blanks_have_no_word { words (codes "   ") ≡ [] }

    ensures blank_pieces_are_skipped { declarations (codes "; ;a b; c;") ≡ (codes "a" ∷ codes "b" ∷ []) ∷ (codes "c" ∷ []) ∷ [] }
    ensures nothing_declares_nothing { declarations [] ≡ [] }

    ensures leading_zeros { count_up_to 65_535 (codes "007") ≡ Some 7 }
    ensures greatest_count { count_up_to 65_535 (codes "65535") ≡ Some 65_535 }
    ensures count_above_the_most { count_up_to 65_535 (codes "65536") ≡ None }
    ensures no_digit { count_up_to 65_535 [] ≡ None }
    ensures count_with_a_sign { count_up_to 65_535 (codes "+1") ≡ None }

    ensures plus { signed_within 65_535 (codes "+5") ≡ Some (pos 5) }
    ensures minus { signed_within 65_535 (codes "-65535") ≡ Some (neg_ℤ (pos 65_535)) }
    ensures minus_zero { signed_within 65_535 (codes "-0") ≡ Some (pos 0) }
    ensures sign_alone { signed_within 65_535 (codes "-") ≡ None }
    ensures below_the_least { signed_within 65_535 (codes "-65536") ≡ None }

    ensures half_below_zero { fixed (codes "-0.5") ≡ Some (neg_ℤ (pos 500_000)) }
    ensures whole_number { fixed (codes "12") ≡ Some (pos 12_000_000) }
    ensures one_millionth { fixed (codes "0.000001") ≡ Some (pos 1) }
    ensures seven_digits_behind_the_point { fixed (codes "0.1234567") ≡ None }
    ensures thirteen_digits_before_it { fixed (codes "1234567890123") ≡ None }
    ensures nothing_behind_the_point { fixed (codes "1.") ≡ None }
    ensures nothing_before_the_point { fixed (codes ".5") ≡ None }
    ensures fixed_with_plus { fixed (codes "+1") ≡ None }
{}
