//! The scene that a configuration describes.
ghost use Rattle.std.specs.Prelude.{◌≡◌, IfOk, IfErr};
ghost use Rattle.scene_model.specs.Faults.{IsFaultless};
ghost use Rattle.music_setup.specs.Faults.{IsSetupFault};
ghost use Rattle.music_setup.specs.Scenes.{scene_of};

use crate::SetupFault;
use crate::apps::read_apps;
use config_text::Config;
use port_match::match_links;
use scene_model::Scene;
use std::alloc::Global;

/// The scene that a configuration describes: its stop, its applications, each with its times, its ports and its rules, and
/// the links that its connections make between them, all in the order of the text.
///
/// The stop is the default `stoptime`, which has to stand. Each section is an application. Its settings are the section's
/// own and else the defaults: `np`, the number of processes, 1 to 64, and 1 where it is absent; `binary`, which has to be
/// `script`; `timestep`, a time of 1 to 10^12 ns; `start`, the clock of its first step, a time, and 0 where it is absent;
/// `stoptime`, before which its steps begin, a time; `ports` and `args`, the declarations of ports and the rules, none
/// where they are absent. Times are written in seconds, and are at most 10^15 ns. An application that does not start before
/// its stop runs no step. Other settings have no effect.
///
/// Refused is the first fault: that of the stop; then that of the first application that has one, by its place from 0,
/// with the first of its kinds in the order of `AppKind`; then that of the first faulty connection, by its place from 0,
/// with the first of its kinds in the order of `LinkKind`. A text fault is never the answer.
#[tactic(auto, using(crate::proofs::OfScenes::scene_fault, crate::proofs::OfScenes::link_fault))]
pub fn read_scene(alloc: Global, config: &Config) -> Result<Scene, SetupFault>
    ensures scene { IfOk result (λ scene. scene_of config.now ≡ Ok scene) }
    ensures fault { IfErr result (IsSetupFault (scene_of config.now)) }
    ensures faultless { IfOk result (λ scene. IsFaultless scene) }
{
    let (stop, apps) = read_apps(alloc, config)?;
    let links = match_links(alloc, apps.as_slice(), config.links.as_slice())?;
    Ok(Scene { stop, apps, links })
}
