//! `Fault`: why a call of the program fails.

use acap_serving::ServeFault;
use acap_session::{PipeFault, ScriptFault};
use thiserror::Error;

/// Why the program could not go on.
#[derive(Clone, Copy, Debug, PartialEq, Eq, Error)]
pub enum Fault {
    /// Standard input failed, or a file can't be read.
    #[error("cannot read")]
    Read,
    /// Standard output failed.
    #[error("cannot write")]
    Write,
    /// Memory was refused.
    #[error("out of memory")]
    Memory,
    /// This line of a script, counted from 1, is none, or can't stand where it does.
    #[error("line {0} cannot be done")]
    Line(u64),
    /// A settings file is none.
    #[error("bad settings")]
    Settings,
    /// The server can't listen where its settings say.
    #[error("cannot listen")]
    Listen,
    /// The calls of the server's sessions don't agree with its history.
    #[error("the calls of the sessions do not agree with the history")]
    Unequal,
}

impl From<PipeFault> for Fault {
    ghost use Rattle.std.specs.Prelude.{◌≡◌};
    ghost use Rattle.acap_calls.specs.Faults.{of_pipe};

    ghost from_gives = { λ fault made. made ≡ of_pipe fault };

    fn from(fault: PipeFault) -> Fault {
        match fault {
            PipeFault::Read => Fault::Read,
            PipeFault::Write => Fault::Write,
            PipeFault::Memory => Fault::Memory,
        }
    }
}

impl From<ScriptFault> for Fault {
    ghost use Rattle.std.specs.Prelude.{◌≡◌};
    ghost use Rattle.acap_calls.specs.Faults.{of_script};

    ghost from_gives = { λ fault made. made ≡ of_script fault };

    fn from(fault: ScriptFault) -> Fault {
        match fault {
            ScriptFault::Line(number) => Fault::Line(number),
            ScriptFault::Read => Fault::Read,
            ScriptFault::Write => Fault::Write,
            ScriptFault::Memory => Fault::Memory,
        }
    }
}

impl From<ServeFault> for Fault {
    ghost use Rattle.std.specs.Prelude.{◌≡◌};
    ghost use Rattle.acap_calls.specs.Faults.{of_server};

    ghost from_gives = { λ fault made. made ≡ of_server fault };

    fn from(fault: ServeFault) -> Fault {
        match fault {
            ServeFault::Read => Fault::Read,
            ServeFault::Settings => Fault::Settings,
            ServeFault::Listen => Fault::Listen,
            ServeFault::Unequal => Fault::Unequal,
            ServeFault::Memory => Fault::Memory,
        }
    }
}
