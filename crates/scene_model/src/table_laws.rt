//! Laws over tables: which tables a scene leaves as they are, what a step wants of them, and what its rows are of.
ghost use Rattle.std.specs.Prelude.{◌≡◌, ◌↔◌, ◌<◌, ◌≤◌, ◌-◌, ◌+◌, ◌*◌, ◌%◌, ℕ, suc, List, Some, true, false};
ghost use Rattle.std.specs.List.Sorted.{IsSorted, IsStable};
ghost use Rattle.music_base.specs.Clocks.{due_step_from};
ghost use Rattle.music_base.specs.Numbers.{in_order};
ghost use Rattle.scene_model.specs.Clocks.{clock, clock_at, due, first_at, last_sample, latency, steps, tick, wanted, wants};
ghost use Rattle.scene_model.specs.Due.{is_step_from};
ghost use Rattle.scene_model.specs.Faults.{IsFaultless};
ghost use Rattle.scene_model.specs.Lives.{again, history, inputs};
ghost use Rattle.scene_model.specs.Logs.{row_cmp, step_rows, step_rows_in};
ghost use Rattle.scene_model.specs.Orders.{AllFinished, IsLawful, after_all, opening_counts};
ghost use Rattle.scene_model.specs.Passing.{AreOfLives, Begins, Fitting, Passed};
ghost use Rattle.scene_model.specs.Scenes.{input_of, receiver, sender};
ghost use Rattle.scene_model.specs.Tables.{Sent, Table, sent_cmp};
ghost use Rattle.scene_model.specs.Waits.{IsAccepted};
ghost use Rattle.scene_model.specs.declared.act.Act.{Act};
ghost use Rattle.scene_model.specs.declared.port.PortKind.TheVariants.{Values};
ghost use Rattle.scene_model.specs.declared.row.Row.{Row};
ghost use Rattle.scene_model.specs.declared.scene.Scene.{Scene};

/// Where some lawful order finishes every application, the history is the one table that is what all steps put out
/// whose inputs read it.
pub fn one_table_is_fixed()
    ensures { (scene : Scene) (limits : List ℕ) (acts : List Act) (table : Table) →
        IsFaultless scene → IsLawful scene limits acts → AllFinished scene (after_all (opening_counts scene) acts) →
        (again scene table ≡ table) ↔ (table ≡ history scene) }
{}

/// An accepted scene has one history.
pub fn accepted_scenes_have_one_history()
    ensures { (scene : Scene) (table : Table) → IsFaultless scene → IsAccepted scene →
        (again scene table ≡ table) ↔ (table ≡ history scene) }
{}

/// A list that is sorted, and in which those that tie have kept their order, is the list in order.
pub fn stable_sorts_put_in_order()
    ensures rows { (rows sorted : List Row) → IsSorted row_cmp sorted → IsStable row_cmp rows sorted →
        sorted ≡ in_order row_cmp rows }
    ensures sent { (sent sorted : List Sent) → IsSorted sent_cmp sorted → IsStable sent_cmp sent sorted →
        sorted ≡ in_order sent_cmp sent }
{}

/// The rows of a step are those of what its inputs read, whatever else the table has.
pub fn step_rows_are_of_what_is_read()
    ensures { (scene : Scene) (table : Table) (b j : ℕ) →
        step_rows scene table b j ≡ step_rows_in scene b j (inputs scene table b j) }
{}

/// Some proper table begins with the blocks that passed.
pub fn what_passed_begins_a_table()
    ensures { (scene : Scene) (passed : Passed) → IsFaultless scene → Fitting scene passed →
        (table : Table) × Begins scene passed table }
{}

/// Where all wanted blocks passed, and they are those of the lives over a table that begins with them, these lives are the
/// history.
pub fn what_passed_is_the_history()
    ensures { (scene : Scene) (limits : List ℕ) (acts : List Act) (passed : Passed) (table : Table) →
        IsFaultless scene → IsLawful scene limits acts → AllFinished scene (after_all (opening_counts scene) acts) →
        Begins scene passed table → AreOfLives scene passed table → again scene table ≡ history scene }
{}

/// A step wants the blocks that it reads. What is due in it stands in one of them (`due`), and what stands in a block that it
/// does not want is due in a later step (`later`).
///
/// Of values that are held it wants just the samples that are not later than the time that it reads (`held`), and none where
/// that lies before the first (`held_none`). Of values that are interpolated it wants these too (`between`), and the next one
/// just where that has a weight (`next`).
pub fn steps_want_what_they_read()
    ensures due { (scene : Scene) (c j k time : ℕ) → IsFaultless scene → ((input_of scene c).kind ≡ Values → ⊥) →
        clock scene (sender scene c) k ≤ time → due scene c time ≡ Some j → wants scene c j k ≡ true }
    ensures later { (scene : Scene) (c j k time : ℕ) → IsFaultless scene → ((input_of scene c).kind ≡ Values → ⊥) →
        k < steps scene (sender scene c) → wanted scene c j ≤ k → clock scene (sender scene c) k ≤ time →
        is_step_from (suc j) (due scene c time) ≡ true }
    ensures held { (scene : Scene) (c j k : ℕ) → IsFaultless scene → (input_of scene c).kind ≡ Values →
        (input_of scene c).interpolate ≡ false → first_at scene c ≤ clock_at scene c j →
        (wants scene c j k ≡ true) ↔ (k ≤ last_sample scene c j) }
    ensures held_none { (scene : Scene) (c j k : ℕ) → IsFaultless scene → (input_of scene c).kind ≡ Values →
        (input_of scene c).interpolate ≡ false → clock_at scene c j < first_at scene c → wants scene c j k ≡ false }
    ensures between { (scene : Scene) (c j k : ℕ) → IsFaultless scene → (input_of scene c).kind ≡ Values →
        (input_of scene c).interpolate ≡ true → first_at scene c ≤ clock_at scene c j →
        k ≤ last_sample scene c j → wants scene c j k ≡ true }
    ensures next { (scene : Scene) (c j : ℕ) → IsFaultless scene → (input_of scene c).kind ≡ Values →
        (input_of scene c).interpolate ≡ true → first_at scene c ≤ clock_at scene c j →
        (wants scene c j (last_sample scene c j + 1) ≡ true) ↔
        (0 < (clock_at scene c j - first_at scene c) % tick scene (sender scene c)) }
{}

/// What is due in a step or later is what its latency puts no earlier than the clock of that step (`numbers`, and of a
/// connection `scenes`). So what lies before the start is past from step 0 on.
pub fn dues_are_by_clock()
    ensures numbers { (time late start tick step : ℕ) → 1 ≤ tick →
        (is_step_from step (due_step_from time late start tick) ≡ true) ↔ (start + step * tick ≤ time + late) }
    ensures scenes { (scene : Scene) (c j time : ℕ) → IsFaultless scene →
        (is_step_from j (due scene c time) ≡ true) ↔ (clock scene (receiver scene c) j ≤ time + latency scene c) }
{}
