//! `keep`: a file of commands that makes again what a server holds, kept current for as long as the program runs.

use crate::dumping::{Dumped, LOST};
use crate::failure::{Failure, Operation, Wanted, said};
use crate::kept_file::lock;
use crate::secret::secret;
use crate::session::Session;
use acap_client::Follower;
use acap_entries::Memory;
use clap::ArgMatches;
use std::alloc::Global;
use std::fs::File;
use std::io::Write;
use std::time::{Duration, Instant};
use std::{mem, thread};

/// The seconds that a server has to answer, and after which it is asked again where nothing changes.
pub(crate) const MINUTE: u64 = 60;

/// The least seconds from one state of the file to the next, and from one session to the next.
pub(crate) const SECOND: u64 = 1;

/// What is done where a server has too little to be what the file was made from.
#[derive(Clone, Copy, PartialEq, Eq)]
pub(crate) enum Remedy {
    /// The program ends.
    Stop,
    /// The file's commands are sent to the server.
    Restore,
    /// The file is put aside.
    Accept,
}

/// What is to be done before the next line of the server is heeded.
#[derive(Clone, Copy, PartialEq, Eq)]
pub(crate) enum Due {
    /// Nothing.
    Nothing,
    /// The first list of the session has come: whether the file may have been made from it is to be judged.
    Judge,
    /// The file's commands are to be sent to the server.
    Restore,
    /// What is followed is what the server has at a moment: the file is to be replaced by it.
    Write,
    /// The list is to be made anew.
    List,
}

/// How far a session with the server has come.
#[derive(Clone, Copy)]
pub(crate) struct Course {
    /// What is to be done.
    pub(crate) due: Due,
    /// The SEARCH isn't answered yet.
    pub(crate) is_listing: bool,
    /// An UPDATECONTEXT isn't answered yet.
    pub(crate) is_asked: bool,
    /// The file doesn't have all that came.
    pub(crate) is_behind: bool,
    /// No list has come yet.
    pub(crate) is_first: bool,
    /// The file was restored in this session.
    pub(crate) is_restored: bool,
}

/// A file that is kept, and what is followed of its server.
#[derive(Drop)]
pub(crate) struct Keeper<'a> {
    pub(crate) rt: &'a HostRuntime,
    pub(crate) server: String,
    pub(crate) user: String,
    pub(crate) secret: Vec<u8>,
    pub(crate) file: String,
    pub(crate) remedy: Remedy,
    pub(crate) over_bases: bool,
    pub(crate) lock: Option<File>,
    /// Whether a server has let the user in before.
    pub(crate) was_let_in: bool,
    pub(crate) follower: Follower,
    pub(crate) course: Course,
    /// When the server was last asked for changes, or the file was last written after that.
    pub(crate) last: Option<Instant>,
    /// What came of the file's last state, once the program has written one.
    pub(crate) dumped: Option<Dumped>,
    /// The last line that was said.
    pub(crate) said: Vec<u8>,
}

/// The moment.
pub(crate) fn now(rt: &HostRuntime) -> Result<Instant, Failure> {
    match Instant::now(rt) {
        Ok(now) => Ok(now),
        Err(error) => Err(Failure::System(Operation::Wait, error)),
    }
}

/// The beginning of a session.
pub(crate) fn beginning() -> Course {
    Course {
        due: Due::Nothing,
        is_listing: false,
        is_asked: false,
        is_behind: false,
        is_first: true,
        is_restored: false,
    }
}

/// What a call wants done where a server has too little.
fn remedy_of(words: &ArgMatches) -> Result<Remedy, Failure> {
    match (words.get_flag("restore"), words.get_flag("accept")) {
        (true, true) => Err(Failure::Word(Wanted::Remedy)),
        (true, false) => Ok(Remedy::Restore),
        (false, true) => Ok(Remedy::Accept),
        (false, false) => Ok(Remedy::Stop),
    }
}

/// A word of a call.
fn word(alloc: Global, matches: &ArgMatches, name: &str) -> Result<String, Memory> {
    Ok(String::from_str(alloc, matches.get_str(name).unwrap_or(""))?)
}

/// What the words of a call want kept.
fn keeper_of<'a>(
    rt: &'a HostRuntime,
    matches: &ArgMatches,
    words: &ArgMatches,
) -> Result<Keeper<'a>, Failure> {
    let remedy = remedy_of(words)?;
    let secret = secret(rt, matches)?;
    let alloc = rt.alloc();
    Ok(Keeper {
        rt,
        server: word(alloc, matches, "HOST:PORT")?,
        user: word(alloc, matches, "USER")?,
        secret,
        file: word(alloc, words, "FILE")?,
        remedy,
        over_bases: words.get_flag("over-bases"),
        lock: None,
        was_let_in: false,
        follower: Follower::new(alloc),
        course: beginning(),
        last: None,
        dumped: None,
        said: Vec::new(alloc),
    })
}

impl<'a> Keeper<'a> {
    /// Says on standard error what the program goes on after, unless that was said last.
    pub(crate) fn say(&mut self, failure: &Failure) -> Result<(), Memory> {
        let line = said(self.rt.alloc(), self.server.as_str(), failure)?;
        if line != self.said {
            let _ = self.rt.stderr().write_all(&line);
            self.said = line;
        }
        Ok(())
    }

    /// Goes on after a session, or fails where the program can't.
    pub(crate) fn go_on(&mut self, ended: Result<(), Failure>) -> Result<(), Failure> {
        match ended {
            Ok(()) => Ok(()),
            Err(failure) if failure.may_pass(self.was_let_in) => Ok(self.say(&failure)?),
            Err(failure) => Err(failure),
        }
    }

    /// A session with the server, once the file is locked against other programs that would keep it.
    fn enter(&mut self) -> Result<Session, Failure> {
        if self.lock.is_none() {
            self.lock = Some(lock(self.rt, self.file.as_str())?);
        }
        let session = Session::connect(self.rt, self.server.as_str(), false)?;
        session.give_time(Duration::from_secs(MINUTE))?;
        session.logged_in(self.user.as_bytes(), &self.secret)
    }

    /// Keeps the file for as long as a session goes on.
    fn attend(&mut self, session: &mut Session) -> Result<(), Failure> {
        self.begin(session)?;
        for _ in 0..u64::MAX {
            match mem::replace(&mut self.course.due, Due::Nothing) {
                Due::Nothing => self.step(session)?,
                Due::Judge => self.judge()?,
                Due::Restore => self.restore(session)?,
                Due::Write => self.write()?,
                Due::List => self.list(session)?,
            }
        }
        Ok(())
    }
}

/// `keep`: keeps the file for one session after the other.
pub(crate) fn keep(
    rt: &HostRuntime,
    matches: &ArgMatches,
    words: &ArgMatches,
) -> Result<(), Failure> {
    let mut keeper = keeper_of(rt, matches, words)?;
    let _ = rt.stderr().write_all(LOST);
    for _ in 0..u64::MAX {
        let ended = match keeper.enter() {
            Ok(mut session) => keeper.attend(&mut session),
            Err(failure) => Err(failure),
        };
        keeper.go_on(ended)?;
        thread::sleep(rt, Duration::from_secs(SECOND));
    }
    Ok(())
}
