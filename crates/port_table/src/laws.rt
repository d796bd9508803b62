//! What the definitions say.
ghost use Rattle.std.specs.Prelude.{◌≡◌, ◌≤◌, ℕ, [], ◌∷◌, List, Some, false, Ok, Err, codes};
ghost use Rattle.text_words.specs.InTurn.{IsFirst};
ghost use Rattle.text_words.specs.Words.{declarations};
ghost use Rattle.scene_model.specs.Ports.{ArePorts};
ghost use Rattle.scene_model.specs.declared.port.PortDecl.{PortDecl};
ghost use Rattle.port_table.specs.declared.fault.PortFault.{PortFault};
ghost use Rattle.port_table.specs.declared.fault.PortFault.TheVariants.{PortText, MapRepeated, OutputTwice};
ghost use Rattle.port_table.specs.Ports.{port_beside, ports_of};
ghost use Rattle.port_table.specs.SmallTexts.{half_empty, input_d, input_in, input_n, output_m, output_p, split_d};

/// Where a text declares no ports, some declaration is the first faulty one: those before it declare ports, and beside
/// these it has the fault. There is no other first one.
pub fn first_faults()
    ensures one_is_first { (np : ℕ) (text : List ℕ) (fault : PortFault) → ports_of np text ≡ Err fault → (i : ℕ) × (before : List PortDecl) × IsFirst (port_beside np) (declarations text) i before fault }
    ensures first_is_the_fault { (np : ℕ) (text : List ℕ) (i : ℕ) (before : List PortDecl) (fault : PortFault) → IsFirst (port_beside np) (declarations text) i before fault → ports_of np text ≡ Err fault }
{}

/// The ports that a text declares for so many processes are ports of a scene without a fault: there are not too many,
/// their names differ, each has a map for each rank, and its numbers lie within their limits.
pub fn read_ports_stand()
    ensures { (np : ℕ) (text : List ℕ) (ports : List PortDecl) → 1 ≤ np → ports_of np text ≡ Ok ports → ArePorts np ports }
{}

/// What small texts declare.
pub fn small_texts()
    ensures output { ports_of 1 (codes "out event p 0+10") ≡ Ok (output_p ∷ []) }
    ensures list { ports_of 1 (codes "in event in 3,1,2") ≡ Ok (input_in ∷ []) }
    ensures leading_zeros { ports_of 1 (codes "out event p 00+010") ≡ Ok (output_p ∷ []) }
    ensures values { ports_of 1 (codes "in cont d 0+2") ≡ Ok (input_d ∷ []) }
    ensures nothing { ports_of 1 [] ≡ Ok [] }

    ensures blank_pieces { ports_of 1 (codes " ;; out  event p 0+10 ; ;") ≡ Ok (output_p ∷ []) }
    ensures in_order { ports_of 1 (codes "out event p 0+10; in cont d 0+2") ≡ Ok (output_p ∷ input_d ∷ []) }

    ensures split { ports_of 2 (codes "in cont d split:2+5") ≡ Ok (split_d ∷ []) }
    ensures empty_rank { ports_of 2 (codes "in event e 0+4/5+0") ≡ Ok (half_empty ∷ []) }
    ensures messages { ports_of 2 (codes "out message m; in message n") ≡ Ok (output_m ∷ input_n ∷ []) }

    ensures held { ports_of 1 (codes "in cont d 0+2 hold buffered 7") ≡ Ok (record input_d { interpolate = false; buffered = Some 7 } ∷ []) }
    ensures held_behind_buffered { ports_of 1 (codes "in cont d 0+2 buffered 7 hold") ≡ Ok (record input_d { interpolate = false; buffered = Some 7 } ∷ []) }
    ensures delayed { ports_of 1 (codes "in cont d 0+2 delay 1e-9") ≡ Ok (record input_d { delay = 1 } ∷ []) }
    ensures late { ports_of 1 (codes "in event in 3,1,2 latency 2e-9") ≡ Ok (record input_in { latency = 2 } ∷ []) }

    ensures repeated { ports_of 1 (codes "in event in 3,1,3") ≡ Err (MapRepeated 1 3) }
    ensures first_repeat { ports_of 1 (codes "out event p 0+10;; in event in 5,7,7,5") ≡ Err (MapRepeated 2 7) }
    ensures twice { ports_of 2 (codes "out event p 0+4/2+4") ≡ Err (OutputTwice 1 2) }
    ensures repeated_before_twice { ports_of 2 (codes "out event p 0+4/2,2") ≡ Err (MapRepeated 1 2) }
    ensures name_again { ports_of 1 (codes "out event p 0+10;;in event p 0+3") ≡ Err (PortText 2) }
    ensures latency_of_an_output { ports_of 1 (codes "out event p 0+4 latency 0") ≡ Err (PortText 1) }
    ensures held_and_interpolated { ports_of 1 (codes "in cont d 0+2 hold interpolate") ≡ Err (PortText 1) }
    ensures option_twice { ports_of 1 (codes "out event p 0+4 buffered 1 buffered 1") ≡ Err (PortText 1) }
    ensures nothing_buffered { ports_of 1 (codes "out event p 0+4 buffered 0") ≡ Err (PortText 1) }
    ensures option_without_value { ports_of 1 (codes "in event in 3 latency") ≡ Err (PortText 1) }
    ensures one_rank_of_two { ports_of 2 (codes "out event p 0+4") ≡ Err (PortText 1) }
    ensures past_the_limit { ports_of 1 (codes "out event p 1+65536") ≡ Err (PortText 1) }
    ensures empty_entry { ports_of 1 (codes "in event in 3,,1") ≡ Err (PortText 1) }
    ensures message_with_a_map { ports_of 1 (codes "in message n 0+1") ≡ Err (PortText 1) }
{}
