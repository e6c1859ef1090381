//! `Follower`: keeps the rows of each context current while it is given the server's lines.
ghost use Rattle.std.specs.Prelude.{◌≡◌, Some, OnOk, OnErr};
ghost use Rattle.std.specs.Option.{option_copied};
ghost use Rattle.acap_commands.specs.declared.command.Command.TheVariants as command;
ghost use Rattle.acap_client.specs.Arguments.{data_in};
ghost use Rattle.acap_client.specs.Following as following;
ghost use Rattle.acap_client.specs.Following.{Goes};
ghost use Rattle.acap_client.specs.Followed.{answered, freed_name, misfit_in, misfit_of};
ghost use Rattle.acap_client.specs.Keeping.{noted};
ghost use Rattle.acap_client.specs.Saying.{ending_of, said};

use crate::asked::Asked;
use crate::data::Data;
use crate::follow_fault::FollowFault;
use crate::kept::Kept;
use crate::line::{Ending, Line};
use crate::named::{look_up, take_out};
use crate::note::Note;
use crate::{contexts, waiting};
use acap_commands::{Command, MakeContext};
use acap_entries::{ContextName, Copying, Label, Memory};
use acap_notices::HeldFault;
use std::alloc::Global;
use std::marker::Model;

/// What stands before the name of a context in a text that says the server has freed it.
const FREEING: &[u8] = b"Context freed: ";

/// What a client holds of its contexts (RFC 2244 sections 3.3, 6.4.1 and 6.5). It is given each command that is sent and
/// each line that is read, in their order. Contracts see the follower of the definition.
#[derive(Drop)]
pub struct Follower {
    alloc: Global,
    contexts: Vec<(ContextName, Kept)>,
    asked: Vec<(Label, Asked)>,
}

impl Model for Follower {
    ghost use Rattle.acap_client.specs.Codes.{follower_code};
    ghost use Rattle.acap_client.specs.Following as following;

    ghost Value = { following.Follower };

    ghost coded = { follower_code };

    ghost view = { λ f. record { contexts = f.contexts.items; asked = f.asked.items } };
}

/// What comes of a line of this context.
fn answer<'a>(done: Result<(), HeldFault>, context: &'a [u8]) -> Result<(), FollowFault<'a>>
    ensures { result ≡ answered done context.entry }
{
    match done {
        Ok(()) => Ok(()),
        Err(HeldFault::Misfit) => Err(FollowFault::Misfit(context)),
        Err(HeldFault::Memory) => Err(FollowFault::Memory),
    }
}

/// The name of the context that a text says the server has freed, if it says so.
fn freed_in(text: &[u8]) -> Option<&[u8]>
    ensures { option_copied result ≡ freed_name text.now }
{
    text.strip_prefix(FREEING)
}

impl Follower {
    /// A client that holds no context yet. Takes no memory.
    pub fn new(alloc: Global) -> Follower
        ensures { result ≡ following.new }
    {
        Follower {
            alloc,
            contexts: Vec::new(alloc),
            asked: Vec::new(alloc),
        }
    }

    /// What is held of each context, under its name, in the order in which they were first made.
    pub fn contexts(&self) -> &[(ContextName, Kept)]
        ensures { result.now ≡ self.now.contexts }
    {
        self.contexts.as_slice()
    }

    /// What is held of the context of a name.
    pub fn context(&self, name: &[u8]) -> Option<&Kept>
        ensures { option_copied result ≡ following.look_up name.now self.now.contexts }
    {
        look_up(self.contexts.as_slice(), name)
    }

    /// A SEARCH is sent that makes a context. At a fault nothing has changed.
    fn make(&mut self, tag: &[u8], make: &MakeContext) -> Result<(), Memory>
        ensures ok { OnOk result (self.new ≡ following.making tag.now (Some make.now) self.old) }
        ensures err { OnErr result (self.new ≡ self.old) }
    {
        let asked = Asked::making(self.alloc, make.copy()?);
        waiting::ask(self.alloc, &mut self.asked, tag, asked)
    }

    /// A FREECONTEXT is sent. At a fault nothing has changed.
    fn give_up(&mut self, tag: &[u8], context: &ContextName) -> Result<(), Memory>
        ensures ok { OnOk result
            (self.new ≡ following.ask tag.now (command.FreeContext context.now) self.old) }
        ensures err { OnErr result (self.new ≡ self.old) }
    {
        let asked = Asked::freeing(context.copy()?);
        waiting::ask(self.alloc, &mut self.asked, tag, asked)
    }

    /// A command is sent under a tag: only a SEARCH that makes a context and a FREECONTEXT are kept. Fails only for want of
    /// memory, and then nothing has changed.
    pub fn ask(&mut self, tag: &[u8], command: &Command) -> Result<(), Memory>
        ensures ok { OnOk result (self.new ≡ following.ask tag.now command.now self.old) }
        ensures err { OnErr result (self.new ≡ self.old) }
    {
        match command {
            Command::Search(search) => match &search.get().modifiers.make_context {
                Some(make) => self.make(tag, make),
                None => Ok(()),
            },
            Command::FreeContext(context) => self.give_up(tag, context),
            _ => Ok(()),
        }
    }

    /// An entry that a SEARCH finds.
    fn add(&mut self, tag: &[u8], name: &[u8], items: &Data) -> Result<(), Memory>
        ensures ok { OnOk result (self.new
            ≡ following.with_row tag.now (following.row_of name.now (data_in items.now))
            (following.look_up tag.now self.old.asked) self.old) }
        ensures err { OnErr result (self.new ≡ self.old) }
    {
        waiting::add(self.alloc, &mut self.asked, tag, name, items)
    }

    /// The end of a command.
    fn end(&mut self, tag: &[u8], ending: Ending) -> Result<(), Memory>
        ensures ok { OnOk result (self.new ≡ following.ended (ending_of ending) tag.now self.old) }
        ensures err { OnErr result (self.new ≡ self.old) }
    {
        match ending {
            Ending::Done => {
                waiting::succeed(self.alloc, &mut self.asked, &mut self.contexts, tag)
            }
            Ending::Failed | Ending::Wrong => {
                take_out(&mut self.asked, tag);
                Ok(())
            }
        }
    }

    /// A notice of a context.
    fn apply<'a>(&mut self, context: &'a [u8], note: &Note) -> Result<(), FollowFault<'a>>
        ensures ok { OnOk result (following.noticed context.now (noted note.now) self.old ≡ Goes self.new) }
        ensures misfit { misfit_in result
            ≡ misfit_of (following.noticed context.now (noted note.now) self.old) }
        ensures err { OnErr result (self.new ≡ self.old) }
    {
        answer(
            contexts::apply(self.alloc, &mut self.contexts, context, note),
            context,
        )
    }

    /// All changes of a context up to a stamp were sent.
    fn complete<'a>(&mut self, context: &'a [u8]) -> Result<(), FollowFault<'a>>
        ensures ok { OnOk result (following.completed context.now self.old ≡ Goes self.new) }
        ensures misfit { misfit_in result ≡ misfit_of (following.completed context.now self.old) }
        ensures err { OnErr result (self.new ≡ self.old) }
    {
        answer(contexts::complete(&mut self.contexts, context), context)
    }

    /// A text for people, which may say that the server has freed a context.
    fn heed(&mut self, text: &[u8])
        ensures { self.new ≡ following.alerted text.now self.old }
    {
        if let Some(context) = freed_in(text) {
            contexts::free(&mut self.contexts, context);
        }
    }

    /// A line is read. `Misfit` exactly where it doesn't fit what is held of its context, which it names. At a fault what
    /// is held stays.
    pub fn follow<'a>(&mut self, line: &Line<'a>) -> Result<(), FollowFault<'a>>
        ensures ok { OnOk result (following.follow self.old (said line.now) ≡ Goes self.new) }
        ensures misfit { misfit_in result ≡ misfit_of (following.follow self.old (said line.now)) }
        ensures err { OnErr result (self.new ≡ self.old) }
    {
        match line {
            Line::Entry(Some(tag), name, items) => Ok(self.add(tag, name, items)?),
            Line::Completion(Some(tag), ending, _, _) => Ok(self.end(tag, *ending)?),
            Line::AddTo(context, name, position, items) => {
                self.apply(*context, &Note::AddTo(*position, *name, *items))
            }
            Line::RemoveFrom(context, name, position) => {
                self.apply(*context, &Note::RemoveFrom(*name, *position))
            }
            Line::Change(context, name, old, new, items) => {
                self.apply(*context, &Note::Change(*old, *new, *name, *items))
            }
            Line::UpTo(context, _) => self.complete(*context),
            Line::Alert(text) => {
                self.heed(text);
                Ok(())
            }
            _ => Ok(()),
        }
    }
}
