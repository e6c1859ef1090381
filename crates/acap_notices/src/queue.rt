//! `Queue`: the pending notices of a context, up to the limit.
ghost use Rattle.std.specs.Prelude.{◌≡◌, ◌↔◌, ◌≤◌, ◌+◌, ◌==◌, [], ◌∷◌, ◌++◌, length};
ghost use Rattle.std.specs.Prelude.{Err, OnOk, OnErr, IfOk};
ghost use Rattle.acap_notices.specs.Waiting.{HasRoom, notices_in, room_in};

use crate::notice::Notice;
use crate::notice_list::NoticeList;
use crate::queue_fault::QueueFault;
use acap_entries::{Copying, Memory, Sequence, Shared, copy_all};
use std::alloc::Global;
use std::marker::Model;

/// How many notices of one context may wait.
pub const NOTICES_PENDING: usize = 4_096;

/// The notices of one context that wait to be sent, the oldest first, and for how many more there is memory (RFC 2244
/// section 3.3). A reply can hold them too.
#[derive(Drop)]
pub struct Queue {
    alloc: Global,
    list: NoticeList,
}

impl Model for Queue {
    ghost use Rattle.std.specs.Prelude.{◌≤◌, length};
    ghost use Rattle.acap_notices.specs.Waiting.{notices_pending};
    ghost use Rattle.acap_notices.specs.Waiting.{Waiting, waiting_code, notices_in, room_in};

    ghost Value = { Waiting };

    ghost coded = { waiting_code };

    ghost view = { λ q. record { notices = notices_in q.list; room = room_in q.list } };

    ghost invariant = { λ q. length (notices_in q.list) ≤ notices_pending };
}

// The notices of a list.
fn lend(list: &NoticeList) -> &[Notice]
    ensures { result.now ≡ notices_in list.now }
{
    match list {
        NoticeList::Own(notices) => notices.as_slice(),
        NoticeList::Shared(notices) => notices.as_slice(),
    }
}

// Makes a list one to which notices can be added: by no copy where nobody else holds it.
fn own(alloc: Global, list: &mut NoticeList) -> Result<(), Memory>
    ensures notices { notices_in list.new ≡ notices_in list.old }
    ensures grows { room_in list.old ≤ room_in list.new }
    ensures memory { OnErr result (room_in list.old ≡ 0) }
{
    let NoticeList::Shared(notices) = list else {
        return Ok(());
    };
    match std::mem::replace(notices, Shared::none()).into_own(alloc) {
        Ok(own) => {
            *list = NoticeList::Own(own.into_vec());
            Ok(())
        }
        Err(same) => {
            *list = NoticeList::Shared(same);
            Err(Memory)
        }
    }
}

// Makes a list one that a reply can hold too: by no copy.
fn share(alloc: Global, list: &mut NoticeList) -> Result<(), Memory>
    ensures { notices_in list.new ≡ notices_in list.old }
{
    let NoticeList::Own(notices) = list else {
        return Ok(());
    };
    let own = std::mem::replace(notices, Vec::new(alloc));
    match Shared::hold(Sequence::from_vec(own)) {
        Ok(shared) => {
            *list = NoticeList::Shared(shared);
            Ok(())
        }
        Err(same) => {
            *list = NoticeList::Own(same.into_vec());
            Err(Memory)
        }
    }
}

// Makes room for `more` notices in a list to which notices can be added.
fn reserve_in(list: &mut NoticeList, more: usize) -> Result<(), Memory>
    ensures notices { notices_in list.new ≡ notices_in list.old }
    ensures grows { room_in list.old ≤ room_in list.new }
    ensures room { OnOk result (more ≤ room_in list.new) }
{
    match list {
        NoticeList::Own(notices) => {
            notices.reserve(more)?;
            Ok(())
        }
        NoticeList::Shared(_) => Err(Memory),
    }
}

// Appends a notice to a list to which notices can be added.
fn push(list: &mut NoticeList, notice: Notice) -> Result<(), Memory>
    ensures ok { OnOk result (notices_in list.new ≡ notices_in list.old ++ notice ∷ []) }
    ensures room { room_in list.old ≤ room_in list.new + 1 }
    ensures memory { OnErr result (room_in list.old ≡ 0) }
    ensures err { OnErr result (notices_in list.new ≡ notices_in list.old) }
    ensures kept { OnErr result (room_in list.old ≤ room_in list.new) }
{
    match list {
        NoticeList::Own(notices) => {
            notices.push(notice)?;
            Ok(())
        }
        NoticeList::Shared(_) => Err(Memory),
    }
}

impl Queue {
    /// None waits. Takes no memory.
    pub fn new(alloc: Global) -> Queue
        ensures { result.notices ≡ [] }
    {
        Queue {
            alloc,
            list: NoticeList::Own(Vec::new(alloc)),
        }
    }

    /// How many wait: at most `NOTICES_PENDING`.
    pub fn len(&self) -> usize
        ensures count { result ≡ length self.now.notices }
        ensures most { result ≤ NOTICES_PENDING }
    {
        lend(&self.list).len()
    }

    /// Whether none waits.
    pub fn is_empty(&self) -> bool
        ensures { result ≡ (length self.now.notices == 0) }
    {
        lend(&self.list).is_empty()
    }

    /// The notices that wait, the oldest first.
    pub fn as_slice(&self) -> &[Notice]
        ensures { result.now ≡ self.now.notices }
    {
        lend(&self.list)
    }

    /// Makes room for `more` notices, or for as many as may wait. What waits stays, and room never shrinks, also where memory is refused.
    pub fn reserve(&mut self, more: usize) -> Result<(), Memory>
        ensures notices { self.new.notices ≡ self.old.notices }
        ensures grows { self.old.room ≤ self.new.room }
        ensures room { OnOk result (HasRoom more self.new) }
    {
        own(self.alloc, &mut self.list)?;
        let free = NOTICES_PENDING - lend(&self.list).len();
        reserve_in(&mut self.list, more.min(free))
    }

    /// Puts a notice after those that wait. `Full` exactly where `NOTICES_PENDING` wait already. Takes memory only
    /// where there is no room. At a
    /// fault nothing has changed.
    pub fn add(&mut self, notice: Notice) -> Result<(), QueueFault>
        ensures ok { OnOk result (self.new.notices ≡ self.old.notices ++ notice ∷ []) }
        ensures room { self.old.room ≤ self.new.room + 1 }
        ensures full { (result ≡ Err QueueFault.Full) ↔ (length self.old.notices ≡ NOTICES_PENDING) }
        ensures memory { result ≡ Err QueueFault.Memory → self.old.room ≡ 0 }
        ensures err { OnErr result (self.new.notices ≡ self.old.notices) }
        ensures kept { OnErr result (self.old.room ≤ self.new.room) }
    {
        if self.len() == NOTICES_PENDING {
            return Err(QueueFault::Full);
        }
        own(self.alloc, &mut self.list)?;
        push(&mut self.list, notice)?;
        Ok(())
    }

    /// Puts those that wait into a list that `share` can lend without a copy. What waits stays.
    pub fn gather(&mut self) -> Result<(), Memory>
        ensures { self.new.notices ≡ self.old.notices }
    {
        if self.is_empty() {
            return Ok(());
        }
        share(self.alloc, &mut self.list)
    }

    /// The notices that wait, the oldest first: those that were gathered are held together with the queue, others are
    /// copied. Fails only for want of memory.
    pub fn share(&self) -> Result<Shared<Notice>, Memory>
        ensures { IfOk result (λ shared. shared ≡ self.now.notices) }
    {
        match &self.list {
            NoticeList::Own(notices) => Shared::new(Sequence::from_vec(copy_all(notices)?)),
            NoticeList::Shared(notices) => notices.copy(),
        }
    }

    /// Drops all that wait. Takes no memory.
    pub fn clear(&mut self)
        ensures { self.new.notices ≡ [] }
    {
        self.list = NoticeList::Own(Vec::new(self.alloc));
    }

    /// One in which the same notices wait. Fails only for want of memory.
    pub fn copy(&self) -> Result<Queue, Memory>
        ensures { IfOk result (λ made. made.notices ≡ self.now.notices) }
    {
        let notices = self.share()?;
        Ok(Queue {
            alloc: self.alloc,
            list: NoticeList::Shared(notices),
        })
    }
}
