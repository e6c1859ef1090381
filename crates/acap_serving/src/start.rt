//! Runs the start file's commands before the server listens.
ghost use Rattle.std.specs.Prelude.{◌≡◌, IfOk};
ghost use Rattle.acap_serving.specs.Devices.{silent_wire};

use crate::bells::Bells;
use crate::fault::ServeFault;
use crate::flag_bell::FlagBell;
use crate::host_source::HostSource;
use crate::seat_pool::FreeSeat;
use crate::start_wire::StartWire;
use acap_entries::{Copying, Octets, UserName};
use acap_locked::{Served, Site};
use acap_login::Users;
use acap_task::{Conn, Over, PassDesk, Running, SessionTask, Wire};
use futures::executor::block_on;
use std::alloc::AllocGlobal;
use std::random::RandomSource;
use std::sync::Wait;
use std::sync::ledger::Ledger;
use std::time::Clock;

/// The polls after which the commands end.
const TURNS: u64 = 1_000_000_000;

// What the session of `root` stands on.
fn conn_of<'a, R: Clock + RandomSource + AllocGlobal>(
    rt: &'a R,
    text: Vec<u8>,
) -> Result<Conn<StartWire, HostSource<'a, R>>, ServeFault>
    ensures { IfOk result (λ conn. ⟦<StartWire as Wire>⟧.told conn.wire ≡ silent_wire) }
{
    let Ok(root) = UserName::read(rt.alloc(), b"root") else {
        return Err(ServeFault::Memory);
    };
    let Ok(source) = HostSource::new(rt, rt) else {
        return Err(ServeFault::Memory);
    };
    Ok(Conn {
        wire: StartWire::new(text),
        user: Some(root),
        source,
    })
}

/// Runs commands at a seat, as those of the user `root`, and gives the seat back. Replies are dropped, and so is how that session ended.
#[tactic(auto, using(crate::proofs::Untold::untold))]
pub(crate) fn run_start<'a, R: Wait + Clock + RandomSource + AllocGlobal, S: Site, L: Ledger>(
    rt: &'a R,
    served: &'a Served<S, L>,
    bells: &'a Bells,
    seat: FreeSeat<S>,
    users: &'a Users,
    host: &Octets,
    text: Vec<u8>,
) -> Result<FreeSeat<S>, ServeFault> {
    let alloc = rt.alloc();
    let conn = conn_of(rt, text)?;
    let host = host.copy()?;
    let FreeSeat { lease, bell } = seat;
    let desk = PassDesk::new(alloc, rt, served, bells, lease.pass);
    let bell = FlagBell::new(bell);
    let task = SessionTask::new(alloc, conn, desk, bell, users, host, TURNS);
    let Ok(Over { running, .. }) = block_on(rt, task) else {
        return Err(ServeFault::Memory);
    };
    let Running { desk, bell, .. } = running;
    Ok(FreeSeat {
        lease: desk.into_lease(),
        bell: bell.into_shared(),
    })
}
