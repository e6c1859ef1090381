//! A command whose completion hasn't come yet, and what it does to contexts.
ghost use Rattle.std.specs.Prelude.{◌≡◌, ◌≤◌, ℕ, List, [], IfOk, OnOk, OnErr, vec_capacity};
ghost use Rattle.acap_client.specs.Arguments.{data_in};
ghost use Rattle.acap_client.specs.Following.{Kept, Making, Freeing, row_of};
ghost use Rattle.acap_client.specs.Keeping.{made_of, unplaced, with_row_of};
ghost use Rattle.acap_client.specs.Wishes.{asked_in};

use crate::arranging;
use crate::data::Data;
use crate::row::Row;
use crate::wish::Wish;
use acap_commands::MakeContext;
use acap_entries::{ContextName, Memory};
use std::alloc::Global;
use std::marker::Model;

/// A command that waits for its end (RFC 2244 sections 6.4.1 and 6.5.1).
#[derive(Drop)]
pub(crate) struct Asked {
    wish: Wish,
}

impl Model for Asked {
    ghost use Rattle.acap_client.specs.Codes.{asked_code};
    ghost use Rattle.acap_client.specs.Following as following;
    ghost use Rattle.acap_client.specs.Wishes.{asked_in};

    ghost Value = { following.Asked };

    ghost coded = { asked_code };

    ghost view = { λ a. asked_in a.wish };
}

impl Asked {
    /// A SEARCH that makes a context.
    pub(crate) fn making(alloc: Global, make: MakeContext) -> Asked
        ensures { result ≡ Making make [] }
    {
        Asked {
            wish: Wish::Make(make, Vec::new(alloc)),
        }
    }

    /// A FREECONTEXT.
    pub(crate) fn freeing(context: ContextName) -> Asked
        ensures { result ≡ Freeing context }
    {
        Asked {
            wish: Wish::Free(context),
        }
    }

    /// A row has come under its tag. It stays where memory is refused.
    pub(crate) fn add(&mut self, alloc: Global, name: &[u8], items: &Data) -> Result<(), Memory>
        ensures ok { OnOk result (self.new ≡ with_row_of (row_of name.now (data_in items.now)) self.old) }
        ensures err { OnErr result (self.new ≡ self.old) }
    {
        match &mut self.wish {
            Wish::Make(_, rows) => {
                rows.push(Row::read(alloc, name, items)?)?;
                Ok(())
            }
            Wish::Free(_) => Ok(()),
        }
    }

    /// Makes room in which rows without positions can be held, and sorts them. Where memory is refused, nothing
    /// has changed.
    pub(crate) fn prepare(&mut self, alloc: Global) -> Result<Vec<Row>, Memory>
        ensures made { (contexts : List (List ℕ × Kept))
            → made_of self.new contexts ≡ made_of self.old contexts }
        ensures none { IfOk result (λ room. room.items ≡ []) }
        ensures room { IfOk result (λ room. unplaced self.new ≤ vec_capacity room) }
        ensures err { OnErr result (self.new ≡ self.old) }
    {
        match &mut self.wish {
            Wish::Make(make, rows) if !make.enumerate => arranging::prepare(alloc, rows),
            _ => Ok(Vec::new(alloc)),
        }
    }

    /// What it is to do.
    pub(crate) fn into_wish(self) -> Wish
        ensures { asked_in result ≡ self }
    {
        self.wish
    }
}
