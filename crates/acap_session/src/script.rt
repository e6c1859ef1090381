//! The state of a script that is being run.

ghost use Rattle.std.specs.Prelude.{◌≡◌};
ghost use Rattle.acap_session.specs.Script.{world_of};

use crate::setup::Setup;
use crate::world::World;
use acap_entries::Moment;
use std::alloc::Global;

/// How far a script has come.
#[derive(Drop)]
pub(crate) enum ScriptStage {
    /// No session has opened, and this is set for the world.
    Before(Setup),
    /// The world, from the opening of the first session on.
    Since(World),
}

impl ScriptStage {
    /// The world, which is made of what was set if there is none yet. Takes no memory.
    pub(crate) fn into_world(self, alloc: Global) -> World
        ensures { result ≡ world_of self }
    {
        match self {
            ScriptStage::Before(setup) => setup.into_world(alloc),
            ScriptStage::Since(world) => world,
        }
    }
}

/// A script, as far as it was done: its world, what the clock shows, and the nonce of challenges.
#[derive(Drop)]
pub(crate) struct Script {
    /// The world, or what is set for it.
    pub(crate) standing: ScriptStage,
    /// What the clock shows.
    pub(crate) clock: Moment,
    /// The nonce of challenges.
    pub(crate) nonce: u64,
}

/// A script that is read, as far as it has come.
#[derive(Drop)]
pub(crate) struct ScriptProgress {
    /// The script, as far as it was done.
    pub(crate) script: Script,
    /// What has come of a line that isn't whole.
    pub(crate) held: Vec<u8>,
    /// How many lines were.
    pub(crate) number: u64,
}
