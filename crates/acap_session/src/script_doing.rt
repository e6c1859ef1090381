//! Does any script line, and gives what it prints.

ghost use Rattle.std.specs.Prelude.{◌≡◌, true, Err, IfOk};
ghost use Rattle.acap_session.specs.Script.{Does, Done, IsDone, MaySay, MaySet, MaySpeak};
ghost use Rattle.acap_session.specs.Script.{Listens, begins, fits, is_wrong};
ghost use Rattle.acap_session.specs.Script.{with_administrator, with_host, with_member, with_user, world_of};
ghost use Rattle.acap_session.specs.ScriptTaking.{IsReached};
ghost use Rattle.acap_script.specs.declared.line_fault.LineFault.TheVariants as faults;

use crate::occasion::Occasion;
use crate::script::{Script, ScriptStage};
use crate::script_acting::do_at;
use crate::script_output::show;
use crate::setup::Setup;
use crate::world::World;
use acap_entries::{Memory, Moment, Octets, Seat, Steps, UserName};
use acap_script::{LineFault, ScriptLine, SeatLine, read_line};
use std::alloc::Global;
use std::mem;
use std::sync::ledger::Ledger;

/// A script before its first line.
pub(crate) fn begin(alloc: Global) -> Result<Script, Memory>
    ensures { IfOk result (λ script. script ≡ begins) }
{
    let host = Octets::from_slice(alloc, b"localhost")?;
    Ok(Script {
        standing: ScriptStage::Before(Setup::new(alloc, host)),
        clock: Moment::new(0).unwrap(),
        nonce: 0,
    })
}

// Takes out the world, which is made of what was set if there is none yet.
fn take_world(alloc: Global, standing: &mut ScriptStage) -> World
    ensures { result ≡ world_of standing.old }
{
    let nothing = Setup::new(alloc, Octets::from_vec(Vec::new(alloc)));
    mem::replace(standing, ScriptStage::Before(nothing)).into_world(alloc)
}

// One more may log in.
fn add_user(
    alloc: Global,
    script: &mut Script,
    name: UserName,
    secret: Octets,
) -> Result<Vec<u8>, LineFault>
    ensures { MaySet (with_user name secret) script.old script.new result }
{
    let ScriptStage::Before(setup) = &mut script.standing else {
        return Err(LineFault::Wrong);
    };
    setup.add_user(name, secret)?;
    Ok(Vec::new(alloc))
}

// One more has all rights.
fn add_administrator(
    alloc: Global,
    script: &mut Script,
    name: UserName,
) -> Result<Vec<u8>, LineFault>
    ensures { MaySet (with_administrator name) script.old script.new result }
{
    let ScriptStage::Before(setup) = &mut script.standing else {
        return Err(LineFault::Wrong);
    };
    setup.add_administrator(name)?;
    Ok(Vec::new(alloc))
}

// One more is in a group.
fn add_member(
    alloc: Global,
    script: &mut Script,
    name: UserName,
    member: UserName,
) -> Result<Vec<u8>, LineFault>
    ensures { MaySet (with_member name member) script.old script.new result }
{
    let ScriptStage::Before(setup) = &mut script.standing else {
        return Err(LineFault::Wrong);
    };
    setup.add_member(alloc, name, member)?;
    Ok(Vec::new(alloc))
}

// That is the name of the host.
fn set_host(alloc: Global, script: &mut Script, text: Octets) -> Result<Vec<u8>, LineFault>
    ensures { MaySet (with_host text) script.old script.new result }
{
    let ScriptStage::Before(setup) = &mut script.standing else {
        return Err(LineFault::Wrong);
    };
    setup.set_host(text);
    Ok(Vec::new(alloc))
}

// Does something at a seat, and gives what is said there then.
fn speak_at<L: Ledger>(
    alloc: Global,
    world: &mut World,
    at: &Occasion,
    line: SeatLine,
    steps: &mut Steps<L>,
) -> Result<Vec<u8>, LineFault>
    requires { Listens at.now.seat world.old }
    ensures { MaySay line at.now world.old world.new result }
{
    do_at(world, at, line, steps)?;
    let said = world.take_output(at.seat);
    let out = show(alloc, at.seat, said.as_slice())?;
    Ok(out)
}

// The same in the world of a script.
fn speak<L: Ledger>(
    alloc: Global,
    script: &mut Script,
    seat: Seat,
    line: SeatLine,
    steps: &mut Steps<L>,
) -> Result<Vec<u8>, LineFault>
    requires { IsReached script.old }
    ensures { MaySpeak seat line script.old script.new result }
{
    let at = Occasion {
        seat,
        clock: script.clock,
        nonce: script.nonce,
    };
    let mut world = take_world(alloc, &mut script.standing);
    let said = speak_at(alloc, &mut world, &at, line, steps);
    script.standing = ScriptStage::Since(world);
    said
}

// Does a line, and gives what it says.
fn do_line<L: Ledger>(
    alloc: Global,
    script: &mut Script,
    line: ScriptLine,
    steps: &mut Steps<L>,
) -> Result<Vec<u8>, LineFault>
    requires { IsReached script.old }
    ensures { Done (fits line script.old.standing) (λ out. Does line script.old out.items script.new) result }
{
    match line {
        ScriptLine::Pass => Ok(Vec::new(alloc)),
        ScriptLine::User(name, secret) => add_user(alloc, script, name, secret),
        ScriptLine::Admin(name) => add_administrator(alloc, script, name),
        ScriptLine::Group(name, member) => add_member(alloc, script, name, member),
        ScriptLine::Host(text) => set_host(alloc, script, text),
        ScriptLine::Clock(moment) => {
            script.clock = moment;
            Ok(Vec::new(alloc))
        }
        ScriptLine::Nonce(nonce) => {
            script.nonce = nonce;
            Ok(Vec::new(alloc))
        }
        ScriptLine::At(seat, line) => speak(alloc, script, seat, line, steps),
    }
}

/// Does the line that a text is, and gives what it says. `Wrong` where it is none, or may not stand there.
pub(crate) fn do_text<L: Ledger>(
    alloc: Global,
    script: &mut Script,
    text: &[u8],
    steps: &mut Steps<L>,
) -> Result<Vec<u8>, LineFault>
    requires { IsReached script.old }
    ensures ok { IfOk result (λ out. IsDone text.now script.old out.items script.new) }
    ensures wrong { (result ≡ Err faults.Wrong) → is_wrong text.now script.old ≡ true }
{
    let line = read_line(alloc, text)?;
    do_line(alloc, script, line, steps)
}
