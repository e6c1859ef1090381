//! What follows from the definitions of sessions and of a client alone: each function does nothing, and its contract is
//! the law.
ghost use Rattle.acap_wire.specs.Ahead.{AheadLaw};
ghost use Rattle.acap_wire.specs.Examples.{WireExamples};
ghost use Rattle.acap_wire.specs.Following.{FollowerLaw, FollowerLawFor};

use acap_grammar::{hearing_law, printed_law, readable_law};
use acap_machine::laws::{current_law, held_law};
use acap_session::World;
use acap_session::laws::{live_law, seating_law};

/// What a client reads from the wire is what a search would find. The follower of a seat is sent the commands of its
/// session, and reads all that is said there, line by line. While a context is live that began with a whole list, it
/// holds the printed rows of the list that was sent last, and no line is a misfit. At each MODTIME of the context,
/// where an UPDATECONTEXT of its name ends, and after a drain these are the rows that a search finds then (RFC 2244
/// sections 3.3 and 6.5).
pub fn follower_law()
    ensures { FollowerLaw }
{
    hearing_law();
    readable_law();
    printed_law();
    current_law();
    held_law();
    seating_law();
    live_law();
}

/// The same law for runs in which those may log in who may in a world, of which it isn't assumed that they have users' names
/// (RFC 2244 sections 3.3 and 6.5).
pub fn world_follower_law(world: &World)
    ensures { FollowerLawFor world.now.users }
{
    world.form_law();
    follower_law();
}

/// A client may send a command before it has read the replies to those before it, as long as no two commands that wait
/// have one tag: its follower is then the same (RFC 2244 section 2.2).
pub fn ahead_law()
    ensures { AheadLaw }
{}

/// What a follower holds that reads octets: of a SEARCH that makes a context, of an UPDATECONTEXT of two contexts, of a
/// drain, and of a literal (RFC 2244 sections 3.3 and 6.5).
pub fn wire_examples()
    ensures { WireExamples }
{}
