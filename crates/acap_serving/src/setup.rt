//! `Setup`: the settings and the start file that a server is made of.
ghost use Rattle.std.specs.Prelude.{IfErr};
ghost use Rattle.acap_serving.specs.Faults.{IsOfReading, IsOfSetup};

use crate::fault::ServeFault;
use acap_entries::Octets;
use acap_settings::Settings;
use std::alloc::{AllocGlobal, Global};
use std::fs;
use std::fs::Files;

/// What a server is made of: its settings, and what its start file holds, if it has one.
#[derive(Drop)]
pub struct Setup {
    /// Its settings.
    pub settings: Settings,
    /// The commands that are run before anybody is served.
    pub start: Option<Vec<u8>>,
}

// The settings in the text of a file.
fn settings_of(alloc: Global, text: &[u8]) -> Result<Settings, ServeFault>
    ensures { IfErr result IsOfSetup }
{
    match std::str::from_utf8(text) {
        Ok(text) => Ok(Settings::read(alloc, text)?),
        Err(_) => Err(ServeFault::Settings),
    }
}

// What a file holds whose name has these octets.
fn file_of<R: Files + AllocGlobal>(rt: &R, name: &Octets) -> Result<Vec<u8>, ServeFault>
    ensures { IfErr result IsOfReading }
{
    match std::str::from_utf8(name.as_slice()) {
        Ok(name) => fs::read(rt, name).map_err(ServeFault::of_reading),
        Err(_) => Err(ServeFault::Read),
    }
}

impl Setup {
    /// Reads a settings file, and the start file that it names. The first fault is reported: the file can't be read, is no text or no
    /// settings, or its start file can't be read.
    pub fn read<R: Files + AllocGlobal>(rt: &R, file: &str) -> Result<Setup, ServeFault>
        ensures { IfErr result IsOfSetup }
    {
        let text = fs::read(rt, file).map_err(ServeFault::of_reading)?;
        let settings = settings_of(rt.alloc(), &text)?;
        let start = match &settings.start {
            Some(name) => Some(file_of(rt, name)?),
            None => None,
        };
        Ok(Setup { settings, start })
    }
}
