//! From a configuration, or a text, to a scene and its plan.
ghost use Rattle.std.specs.Prelude.{◌≡◌, ◌≢◌, ℕ, IfErr, IfOk, Ok, Some};
ghost use Rattle.music_setup.specs.Scenes.{scene_of};
ghost use Rattle.music_setup.specs.Setups.{IsConfigFault, IsSound, IsTextFault, SpellsScene};
ghost use Rattle.music_setup.specs.Texts.{HasText};
ghost use Rattle.music_setup.specs.declared.fault.SetupFault.TheVariants.{Memory, Text};

use crate::SetupFault;
use crate::scenes::read_scene;
use config_text::{Config, read_config};
use scene_model::Scene;
use std::alloc::Global;
use std::marker::Model;
use tick_plan::{Plan, negotiate};

/// A scene that has no fault and is accepted, and its plan, which fits it.
#[derive(Debug, Drop)]
pub struct Ready {
    scene: Scene,
    plan: Plan,
}

impl Model for Ready {
    ghost use Rattle.music_setup.specs.Setups.{IsSound, PlannedScene};

    ghost Value = { PlannedScene };

    ghost view = { λ ready. record { scene = ready.scene; plan = ready.plan } };

    ghost invariant = { λ ready. IsSound (record { scene = ready.scene; plan = ready.plan }) };
}

impl Ready {
    /// The scene, which has no fault and is accepted.
    pub fn scene(&self) -> &Scene
        ensures scene { result.now ≡ self.now.scene }
        ensures sound { IsSound self.now }
    {
        &self.scene
    }

    /// The plan of the scene, which fits it.
    pub fn plan(&self) -> &Plan
        ensures plan { result.now ≡ self.now.plan }
        ensures sound { IsSound self.now }
    {
        &self.plan
    }
}

/// The scene that a configuration describes, as [`read_scene`] gives it, and its plan, as `tick_plan::negotiate` gives it.
///
/// Refused is the first fault of the configuration, and where it has none a cycle of the scene's waits under stated
/// limits that is not covered. A text fault is never the answer. Each fault but want of memory has a text beside the
/// configuration.
pub fn setup_config(alloc: Global, config: &Config) -> Result<Ready, SetupFault>
    ensures scene { IfOk result (λ ready. scene_of config.now ≡ Ok ready.scene) }
    ensures sound { IfOk result IsSound }
    ensures fault { IfErr result (IsConfigFault config.now) }
    ensures has_text { IfErr result (λ fault. fault ≢ Memory → HasText (Some config.now) fault) }
{
    let scene = read_scene(alloc, config)?;
    let plan = negotiate(alloc, &scene)?;
    Ok(Ready { scene, plan })
}

/// The scene of the configuration that the bytes spell, and its plan.
///
/// Refused is the first fault of the text, as `config_text::read_config` gives it, and where it has none that of the
/// configuration, as [`setup_config`] gives it.
pub fn setup(alloc: Global, bytes: &[u8]) -> Result<Ready, SetupFault>
    ensures scene { IfOk result (λ ready. SpellsScene bytes.now ready.scene) }
    ensures sound { IfOk result IsSound }
    ensures fault { IfErr result (IsTextFault bytes.now) }
{
    let config = read_config(alloc, bytes)?;
    setup_config(alloc, &config)
}
