//! Laws over the lives of applications, and over the history that they come to.
ghost use Rattle.std.specs.Prelude.{ℕ, ◌≡◌, true};
ghost use Rattle.std.specs.List.{list_all, AllByRecursion};
ghost use Rattle.scene_model.specs.Faults.{IsFaultless};
ghost use Rattle.scene_model.specs.Lives.{again, history};
ghost use Rattle.scene_model.specs.Logs.{is_writable, rows};
ghost use Rattle.scene_model.specs.Tables.{Fits64Bits, IsProper, Table, block};
ghost use Rattle.scene_model.specs.declared.scene.Scene.{Scene};

/// Whatever the inputs read, what all steps put out makes a proper table: events of indices that their outputs map and
/// messages, each of a time within its step, and a value for each mapped index.
pub fn lives_are_proper()
    ensures { (scene : Scene) (table : Table) → IsFaultless scene → IsProper scene (again scene table) }
{}

/// Each row of a history is of an application and a port of the scene, and the word of each message is a word, since it
/// stands in a rule. So the log can be written.
pub fn history_can_be_written()
    ensures { (scene : Scene) → IsFaultless scene → list_all (is_writable scene) (rows scene (history scene)) ≡ true }
{}

/// 64 bits hold each value of a history: one that a rule states is small, and a computed one saturates.
pub fn values_of_the_history_fit()
    ensures { (scene : Scene) (a k p : ℕ) → IsFaultless scene → AllByRecursion Fits64Bits (block (history scene) a k p) }
{}
