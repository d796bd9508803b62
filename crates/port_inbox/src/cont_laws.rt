ghost use Rattle.std.specs.Prelude.{◌≡◌, ◌<◌, ℕ, Bool, true, false, [], ◌∷◌, length, pos, negsuc};
ghost use Rattle.music_base.specs.declared.item.Block.{Block};
ghost use Rattle.music_base.specs.declared.item.Item.TheVariants.{Value};
ghost use Rattle.scene_model.specs.Scenes.{sender};
ghost use Rattle.scene_model.specs.Tables.{Table, block_on, steps_of, value};
ghost use Rattle.scene_model.specs.declared.scene.Scene.{Scene};
ghost use Rattle.port_inbox.specs.Samples.{HoldsSamples, IsSampled, Samples, fresh_samples, read, with_sample};

/// An inbox for values holds every table before the first block, and after each block the tables that have it; and where just
/// the blocks that a step wants were admitted, the step reads the values of each such table.
pub fn samples_hold()
    ensures made { (scene : Scene) (c : ℕ) (table : Table) (delay : ℕ) (interpolate : Bool) (send_tick receive_tick send_start receive_start : ℕ) →
        HoldsSamples scene c (fresh_samples delay interpolate send_tick receive_tick send_start receive_start) table }
    ensures admitted { (scene : Scene) (c : ℕ) (table : Table) (s : Samples) (block : Block) → block.number ≡ s.admitted →
        block.number < length (steps_of table (sender scene c)) → block.items ≡ block_on scene table c block.number →
        HoldsSamples scene c s table → HoldsSamples scene c (with_sample s block) table }
    ensures values { (scene : Scene) (b p c : ℕ) (s : Samples) (table : Table) (step g : ℕ) → IsSampled scene b p c s table step → read s step g ≡ value scene table b p step g }
{}

/// Small cases, computed: ticks of 1,000,000 ns, and a sender that starts at 500,000.
pub fn worked_reads()
    ensures held { read (with_sample (fresh_samples 0 false 1_000_000 1_000_000 500_000 1_000_000) (record { number = 0; items = Value 0 (pos 7) ∷ [] })) 0 0 ≡ pos 7 }
    ensures before { read (with_sample (fresh_samples 0 false 1_000_000 1_000_000 500_000 0) (record { number = 0; items = Value 0 (pos 7) ∷ [] })) 0 0 ≡ pos 0 }
    ensures behind { read (with_sample (fresh_samples 500_001 false 1_000_000 1_000_000 500_000 1_000_000) (record { number = 0; items = Value 0 (pos 7) ∷ [] })) 0 0 ≡ pos 0 }
    ensures between { read (with_sample (with_sample (fresh_samples 0 true 1_000_000 1_000_000 500_000 1_000_000) (record { number = 0; items = Value 0 (pos 2) ∷ [] })) (record { number = 1; items = Value 0 (negsuc 2) ∷ [] })) 0 0 ≡ negsuc 0 }
{}
