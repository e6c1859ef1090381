//! Writes commands as lines, and drops the commands.

ghost use Rattle.std.specs.Prelude.{◌≡◌, IfOk, OnOk};
ghost use Rattle.acap_client.specs.Following as following;
ghost use Rattle.acap_grammar.specs.Texts.{line_of};

use acap_client::{Follower, command_line};
use acap_commands::Command;
use acap_entries::Memory;
use std::alloc::Global;

/// The line that is sent for a command under a tag, with its CR LF (RFC 2244 sections 2.2 and 6). Fails only for want of memory.
pub fn line_of(alloc: Global, tag: &[u8], command: Command) -> Result<Vec<u8>, Memory>
    ensures { IfOk result (λ line. line.items ≡ line_of tag.now command) }
{
    command_line(alloc, tag, &command)
}

/// The same, of a command that a follower is to know of. Fails only for want of memory; the follower may know of it then.
pub fn followed_line(
    alloc: Global,
    tag: &[u8],
    follower: &mut Follower,
    command: Command,
) -> Result<Vec<u8>, Memory>
    ensures line { IfOk result (λ line. line.items ≡ line_of tag.now command) }
    ensures known { OnOk result (follower.new ≡ following.ask tag.now command follower.old) }
{
    follower.ask(tag, &command)?;
    command_line(alloc, tag, &command)
}
