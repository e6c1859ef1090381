//! Counts the failures of a wire's writer.
ghost use Rattle.std.specs.Prelude.{◌≡◌, ◌==◌, if◌then◌else◌};
ghost use Rattle.acap_task.specs.Told.{up};

use acap_task::count_up;

/// How often a writer has failed, once it has taken `count` octets: one that takes none has failed.
pub(crate) fn faults_after(faults: u64, count: usize) -> u64
    ensures { result ≡ (if count == 0 then up faults else faults) }
{
    if count == 0 { count_up(faults) } else { faults }
}
