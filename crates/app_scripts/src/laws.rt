//! Laws over the definitions: what small texts spell.
ghost use Rattle.std.specs.Prelude.{◌≡◌, ℕ, List, [], ◌∷◌, pos, negsuc, codes};
ghost use Rattle.scene_model.specs.Rules.{AreRules, runs_for};
ghost use Rattle.scene_model.specs.declared.port.PortDecl.{PortDecl};
ghost use Rattle.scene_model.specs.declared.rule.Rule.{Rule};
ghost use Rattle.scene_model.specs.declared.rule.Rule.TheVariants.{
  EmitAt,
  EmitEvery,
  Pass,
  SetValue,
  Ramp,
  CopyValues,
  When,
  Say,
  Reply,
};
ghost use Rattle.app_scripts.specs.declared.fault.RuleFault.TheVariants.{
  RuleText,
  RulePort,
  RuleIndex,
  RuleAfter,
  RuleRate,
};
ghost use Rattle.app_scripts.specs.Rules.{rules_of};
ghost use Rattle.app_scripts.specs.WorkedRules.{spelled};

/// A rule of each form, blank pieces, and texts with faults, at an application with an output and an input of each
/// kind.
pub fn worked_rules()
    ensures no_rules { spelled (codes "") ≡ Ok [] }
    ensures emit_at { spelled (codes "emit spikes 3 at 0.0005") ≡ Ok (EmitAt (codes "spikes") 3 500_000 ∷ []) }
    ensures emit_every { spelled (codes "emit spikes 3 every 0.001 from 5e-4") ≡ Ok (EmitEvery (codes "spikes") 3 1_000_000 500_000 ∷ []) }
    ensures pass { spelled (codes "pass in to spikes shift -2 after 0") ≡ Ok (Pass (codes "in") (codes "spikes") (negsuc 1) 0 ∷ []) }
    ensures set { spelled (codes "set level 1 0.5") ≡ Ok (SetValue (codes "level") 1 (pos 500_000) ∷ []) }
    ensures ramp { spelled (codes "ramp level 0 from -1 by 0.001") ≡ Ok (Ramp (codes "level") 0 (negsuc 999_999) (pos 1_000) ∷ []) }
    ensures copy { spelled (codes "copy seen to level scale -1/2 add 0.25") ≡ Ok (CopyValues (codes "seen") (codes "level") (negsuc 0) 2 (pos 250_000) ∷ []) }
    ensures when { spelled (codes "when seen 3 over 0.25 emit spikes 9") ≡ Ok (When (codes "seen") 3 (pos 250_000) (codes "spikes") 9 ∷ []) }
    ensures say { spelled (codes "say note go-1.5 every 0.002 from 0") ≡ Ok (Say (codes "note") (codes "go-1.5") 2_000_000 0 ∷ []) }
    ensures reply { spelled (codes "reply cmd to note after 0.0009") ≡ Ok (Reply (codes "cmd") (codes "note") 900_000 ∷ []) }

    // Pieces of blanks alone are skipped, and do not count.
    ensures blank_pieces { spelled (codes " ;;emit  spikes 03 at 0; ;set level 0 1;") ≡
        Ok (EmitAt (codes "spikes") 3 0 ∷ SetValue (codes "level") 0 (pos 1_000_000) ∷ []) }
    ensures second { spelled (codes ";set level 0 1; ; emit spikes 10 at 0; emit") ≡ Err (RuleIndex 2) }

    // Each fault, and the first one of a rule with two.
    ensures no_form { spelled (codes "emit spikes") ≡ Err (RuleText 1) }
    ensures word_too_many { spelled (codes "emit spikes 3 at 0 0") ≡ Err (RuleText 1) }
    ensures no_port { spelled (codes "emit nope 3 at 0") ≡ Err (RulePort 1) }
    ensures other_direction { spelled (codes "emit in 3 at 0") ≡ Err (RulePort 1) }
    ensures other_kind { spelled (codes "emit level 3 at 0") ≡ Err (RulePort 1) }
    ensures no_index { spelled (codes "emit spikes 10 at 0") ≡ Err (RuleIndex 1) }
    ensures tick_later { spelled (codes "reply cmd to note after 0.001") ≡ Err (RuleAfter 1) }
    ensures no_period { spelled (codes "emit spikes 3 every 0 from 0") ≡ Err (RuleRate 1) }
    ensures short_period { spelled (codes "say note go every 2e-9 from 0") ≡ Err (RuleRate 1) }
    ensures long_enough { spelled (codes "say note go every 3e-9 from 0") ≡ Ok (Say (codes "note") (codes "go") 3 0 ∷ []) }
    ensures port_before_index { spelled (codes "emit nope 10 at 0") ≡ Err (RulePort 1) }
    ensures index_before_rate { spelled (codes "emit spikes 10 every 0 from 0") ≡ Err (RuleIndex 1) }
    ensures port_before_after { spelled (codes "pass spikes to in shift 0 after 1") ≡ Err (RulePort 1) }
{}

/// The rules that a text spells for an application are rules of a scene without a fault: they lie within the limits of
/// numbers and words, and each has the ports, the indices and the times that it asks for; and there are not too many.
pub fn spelled_rules_stand()
    ensures { (ports : List PortDecl) (tick span : ℕ) (text : List ℕ) (rules : List Rule) → rules_of ports tick span text ≡ Ok rules → AreRules ports tick (runs_for span tick) rules }
{}
