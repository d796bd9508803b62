//! Laws over the definitions: what connections of a small scene make, and what stands of links that were made.
ghost use Rattle.std.specs.Prelude.{◌≡◌, ℕ, true, List, [], ◌∷◌, length, codes, map, Some, Ok, Err};
ghost use Rattle.std.specs.List.{list_all};
ghost use Rattle.text_words.specs.InTurn.{IsFirst};
ghost use Rattle.config_text.specs.Connections.{is_link};
ghost use Rattle.config_text.specs.declared.link_text.LinkText.{LinkText};
ghost use Rattle.scene_model.specs.Links.{AreLinks, has_lawful_numbers};
ghost use Rattle.scene_model.specs.WorkedScenes.{link};
ghost use Rattle.scene_model.specs.declared.scene.AppDecl.{AppDecl};
ghost use Rattle.scene_model.specs.declared.scene.Link.{Link};
ghost use Rattle.port_match.specs.Links.{link_at_place, links_of};
ghost use Rattle.port_match.specs.Made.{named};
ghost use Rattle.port_match.specs.SmallScenes.{few_many, joins, level_across, level_back, level_past, level_seen, matched, note_cmd, out_in, out_many, stating, within};
ghost use Rattle.port_match.specs.declared.fault.LinkKind.TheVariants.{UnknownApp, UnknownPort, Direction, Kind, Width, Unmapped, PairTwice, ContTwice};
ghost use Rattle.port_match.specs.declared.fault.MatchFault.{MatchFault};
ghost use Rattle.port_match.specs.declared.fault.MatchFault.TheVariants as faults;

/// Where connections make no links, some connection is the first faulty one: those before it make links, and after
/// these it has the fault. There is no other first one.
pub fn first_faults()
    ensures one_is_first { (apps : List AppDecl) (texts : List LinkText) (fault : MatchFault) → links_of apps texts ≡ Err fault → (i : ℕ) × (before : List Link) × IsFirst (link_at_place apps) texts i before fault }
    ensures first_is_the_fault { (apps : List AppDecl) (texts : List LinkText) (i : ℕ) (before : List Link) (fault : MatchFault) → IsFirst (link_at_place apps) texts i before fault → links_of apps texts ≡ Err fault }
{}

/// The links that connections make are links of a scene without a fault: one for each connection, between the ports that
/// it names, with the width, the latency and the number of blocks that it states. What a connection of a text can state lies
/// within the limits of a link.
pub fn made_links_stand()
    ensures stand { (apps : List AppDecl) (texts : List LinkText) (links : List Link) → links_of apps texts ≡ Ok links → AreLinks apps links }
    ensures as_named { (apps : List AppDecl) (texts : List LinkText) (links : List Link) → links_of apps texts ≡ Ok links → map (named apps) links ≡ texts }
    ensures as_many { (apps : List AppDecl) (texts : List LinkText) (links : List Link) → links_of apps texts ≡ Ok links → length links ≡ length texts }
    ensures numbers { (apps : List AppDecl) (texts : List LinkText) (links : List Link) → links_of apps texts ≡ Ok links → list_all is_link texts ≡ true → list_all has_lawful_numbers links ≡ true }
{}

/// What connections make in a small scene: lawful ones, a fault of each kind, and the first of two.
pub fn small_scenes()
    ensures no_connection { matched [] ≡ Ok [] }
    ensures to_itself { matched (out_in ∷ []) ≡ Ok (link 0 0 0 1 ∷ []) }
    ensures fan_out { matched (out_in ∷ out_many ∷ []) ≡ Ok (link 0 0 0 1 ∷ link 0 0 1 1 ∷ []) }
    ensures fan_in { matched (out_many ∷ few_many ∷ []) ≡ Ok (link 0 0 1 1 ∷ link 1 0 1 1 ∷ []) }
    ensures values { matched (level_across ∷ []) ≡ Ok (link 0 2 1 3 ∷ []) }
    ensures some_of_the_values { matched (level_seen ∷ []) ≡ Ok (link 0 2 0 3 ∷ []) }
    ensures values_fan_out { matched (level_seen ∷ level_across ∷ []) ≡ Ok (link 0 2 0 3 ∷ link 0 2 1 3 ∷ []) }
    ensures messages { matched (note_cmd ∷ []) ≡ Ok (link 0 4 0 5 ∷ []) }
    ensures width { matched (within 4 out_in ∷ []) ≡ Ok (record (link 0 0 0 1) { width = Some 4 } ∷ []) }
    ensures options { matched (stating 5 3 out_in ∷ []) ≡ Ok (record (link 0 0 0 1) { latency = Some 5; buffered = Some 3 } ∷ []) }

    // A fault of each kind.
    ensures unknown_sender { matched (joins (codes "nope") (codes "out") (codes "left") (codes "in") ∷ []) ≡ Err (faults.Link 0 UnknownApp) }
    ensures unknown_receiver { matched (joins (codes "left") (codes "out") (codes "nope") (codes "in") ∷ []) ≡ Err (faults.Link 0 UnknownApp) }
    ensures unknown_output { matched (joins (codes "left") (codes "nope") (codes "left") (codes "in") ∷ []) ≡ Err (faults.Link 0 UnknownPort) }
    ensures unknown_input { matched (joins (codes "left") (codes "out") (codes "left") (codes "many") ∷ []) ≡ Err (faults.Link 0 UnknownPort) }
    ensures from_an_input { matched (joins (codes "left") (codes "in") (codes "right") (codes "many") ∷ []) ≡ Err (faults.Link 0 Direction) }
    ensures to_an_output { matched (joins (codes "left") (codes "out") (codes "right") (codes "few") ∷ []) ≡ Err (faults.Link 0 Direction) }
    ensures other_kind { matched (joins (codes "left") (codes "out") (codes "left") (codes "cmd") ∷ []) ≡ Err (faults.Link 0 Kind) }
    ensures output_past_width { matched (within 3 level_seen ∷ []) ≡ Err (faults.Link 0 Width) }
    ensures input_past_width { matched (within 7 few_many ∷ []) ≡ Err (faults.Link 0 Width) }
    ensures no_value { matched (level_past ∷ []) ≡ Err (faults.Link 0 Unmapped) }
    ensures pair_twice { matched (out_many ∷ few_many ∷ out_many ∷ []) ≡ Err (faults.Link 2 PairTwice) }
    ensures two_values { matched (level_across ∷ level_back ∷ []) ≡ Err (faults.Link 1 ContTwice) }

    // The first of two.
    ensures app_before_port { matched (joins (codes "left") (codes "nope") (codes "nope") (codes "in") ∷ []) ≡ Err (faults.Link 0 UnknownApp) }
    ensures port_before_direction { matched (joins (codes "left") (codes "in") (codes "left") (codes "nope") ∷ []) ≡ Err (faults.Link 0 UnknownPort) }
    ensures direction_before_kind { matched (joins (codes "left") (codes "in") (codes "left") (codes "cmd") ∷ []) ≡ Err (faults.Link 0 Direction) }
    ensures kind_before_width { matched (within 1 (joins (codes "left") (codes "out") (codes "left") (codes "cmd")) ∷ []) ≡ Err (faults.Link 0 Kind) }
    ensures width_before_values { matched (within 5 level_past ∷ []) ≡ Err (faults.Link 0 Width) }
    ensures width_before_pair { matched (out_in ∷ within 3 out_in ∷ []) ≡ Err (faults.Link 1 Width) }
    ensures pair_before_two_values { matched (level_across ∷ level_across ∷ []) ≡ Err (faults.Link 1 PairTwice) }
    ensures first_connection { matched (out_in ∷ within 3 out_in ∷ level_past ∷ []) ≡ Err (faults.Link 1 Width) }
{}
