//! `ServeFault`: why a server doesn't serve, or ends otherwise than it should.
ghost use Rattle.std.specs.Prelude.{◌≡◌};
ghost use Rattle.acap_serving.specs.Faults.{IsOfListening, IsOfReading};

use acap_entries::Memory;
use acap_locked::CloseFault;
use acap_settings::SettingsFault;
use std::io;
use thiserror::Error;

/// Why a server did not serve, or ended otherwise than it should.
#[derive(Clone, Copy, Debug, PartialEq, Eq, Error)]
pub enum ServeFault {
    /// The settings file or the start file can't be read.
    #[error("cannot read")]
    Read,
    /// The settings file is no text, or its text no settings.
    #[error("bad settings")]
    Settings,
    /// The server can't listen where the settings say.
    #[error("cannot listen")]
    Listen,
    /// The passes of the server don't hold what its history has of them.
    #[error("the passes do not hold what the history has of them")]
    Unequal,
    /// Memory was refused.
    #[error("out of memory")]
    Memory,
}

impl ServeFault {
    /// The fault of a file that can't be read.
    pub(crate) fn of_reading(error: io::Error) -> ServeFault
        ensures { IsOfReading result }
    {
        match error.kind() {
            io::ErrorKind::OutOfMemory => ServeFault::Memory,
            _ => ServeFault::Read,
        }
    }

    /// The fault of a socket that can't be made, or doesn't listen.
    pub(crate) fn of_listening(error: io::Error) -> ServeFault
        ensures { IsOfListening result }
    {
        match error.kind() {
            io::ErrorKind::OutOfMemory => ServeFault::Memory,
            _ => ServeFault::Listen,
        }
    }
}

impl From<SettingsFault> for ServeFault {
    ghost use Rattle.std.specs.Prelude.{◌≡◌};
    ghost use Rattle.acap_serving.specs.Faults.{of_settings};

    ghost from_gives = { λ fault made. made ≡ of_settings fault };

    fn from(fault: SettingsFault) -> ServeFault {
        match fault {
            SettingsFault::NotToml => ServeFault::Settings,
            SettingsFault::BadKey(_) => ServeFault::Settings,
            SettingsFault::Memory => ServeFault::Memory,
        }
    }
}

impl From<CloseFault> for ServeFault {
    ghost use Rattle.std.specs.Prelude.{◌≡◌};
    ghost use Rattle.acap_serving.specs.Faults.{of_close};

    ghost from_gives = { λ fault made. made ≡ of_close fault };

    fn from(fault: CloseFault) -> ServeFault {
        match fault {
            CloseFault::PassMissing(_) => ServeFault::Unequal,
            CloseFault::Unequal(_) => ServeFault::Unequal,
            CloseFault::Memory => ServeFault::Memory,
        }
    }
}

impl From<Memory> for ServeFault {
    ghost use Rattle.std.specs.Prelude.{◌≡◌};
    ghost use Rattle.acap_serving.specs.declared.fault.ServeFault.TheVariants as faults;

    ghost from_gives = { λ _ made. made ≡ faults.Memory };

    fn from(_memory: Memory) -> ServeFault {
        ServeFault::Memory
    }
}
