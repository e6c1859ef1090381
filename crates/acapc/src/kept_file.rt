//! The file that `keep` keeps current. Its next state is written beside it, and takes its place whole.

use crate::failure::{Failure, Operation, Problem};
use std::alloc::{AllocError, Global};
use std::fs::{File, OpenOptions};
use std::io::ErrorKind;
use std::os::unix::fs::OpenOptionsExt;
use std::{fs, io};

/// Only who owns the file may read and write it: it may have secrets of users.
const MODE: u32 = 0o600;

/// What the name of its next state has more, while that is written.
const NEXT: &str = ".new";

/// What the name of an old state has more that was put aside.
const ASIDE: &str = ".1";

/// What its name has more while it is restored.
const RESTORING: &str = ".restoring";

/// What the name of the file has more that is locked while a program keeps it.
const LOCK: &str = ".lock";

/// The name of a file beside it.
fn name(alloc: Global, path: &str, more: &str) -> Result<String, AllocError> {
    format!(in alloc; "{path}{more}")
}

/// The folder that it lies in.
fn folder_of(path: &str) -> &str {
    match path.rsplit_once('/') {
        Some(("", _)) => "/",
        Some((folder, _)) => folder,
        None => ".",
    }
}

/// What was done to files, as the program says it.
fn written<T>(done: io::Result<T>) -> Result<T, Failure> {
    match done {
        Ok(made) => Ok(made),
        Err(error) => Err(Failure::System(Operation::WriteKept, error)),
    }
}

/// Flushes its folder to the disk: which files are there, under which names.
fn flush_folder(rt: &HostRuntime, path: &str) -> io::Result<()> {
    let folder = File::open(rt, folder_of(path))?;
    folder.sync_all()
}

/// Removes a file beside it, if there is one.
fn remove(rt: &HostRuntime, path: &str, more: &str) -> io::Result<()> {
    let name = name(rt.alloc(), path, more)?;
    match fs::remove_file(rt, name.as_str()) {
        Ok(()) => Ok(()),
        Err(error) => match error.kind() {
            ErrorKind::NotFound => Ok(()),
            _ => Err(error),
        },
    }
}

/// Gives it a second name beside it, which is flushed to the disk.
fn link(rt: &HostRuntime, path: &str, more: &str) -> io::Result<()> {
    let name = name(rt.alloc(), path, more)?;
    fs::hard_link(rt, path, name.as_str())?;
    flush_folder(rt, path)
}

/// Opens the file that is locked, and locks it.
fn open_locked(rt: &HostRuntime, path: &str) -> io::Result<File> {
    let name = name(rt.alloc(), path, LOCK)?;
    let file = OpenOptions::new()
        .write(true)
        .create(true)
        .mode(MODE)
        .open(rt, name.as_str())?;
    file.try_lock()?;
    Ok(file)
}

/// Locks it against other programs that would keep it, for as long as the lock is held.
pub(crate) fn lock(rt: &HostRuntime, path: &str) -> Result<File, Failure> {
    match open_locked(rt, path) {
        Ok(lock) => Ok(lock),
        Err(error) => match error.kind() {
            ErrorKind::WouldBlock => Err(Failure::Other(Problem::KeptAlready)),
            _ => Err(Failure::System(Operation::WriteKept, error)),
        },
    }
}

/// Makes the file of its next state. What an earlier program left there is removed.
fn make_next(rt: &HostRuntime, path: &str) -> io::Result<File> {
    remove(rt, path, NEXT)?;
    let name = name(rt.alloc(), path, NEXT)?;
    OpenOptions::new()
        .write(true)
        .create_new(true)
        .mode(MODE)
        .open(rt, name.as_str())
}

/// Its next state, of which nothing is written yet.
pub(crate) fn next(rt: &HostRuntime, path: &str) -> Result<File, Failure> {
    written(make_next(rt, path))
}

/// Gives the next state up.
pub(crate) fn give_up(rt: &HostRuntime, path: &str) {
    let _ = remove(rt, path, NEXT);
}

/// Flushes the next state to the disk, and puts it in place of the one that was.
fn replace(rt: &HostRuntime, path: &str, next: &File) -> io::Result<()> {
    next.sync_all()?;
    let name = name(rt.alloc(), path, NEXT)?;
    fs::rename(rt, name.as_str(), path)?;
    flush_folder(rt, path)
}

/// Puts the next state in place of the one that was, once it is on the disk.
pub(crate) fn put_in_place(rt: &HostRuntime, path: &str, next: &File) -> Result<(), Failure> {
    written(replace(rt, path, next))
}

/// Gives it the name FILE.1 too, so that its next state leaves it there. Fails where there is such a file.
pub(crate) fn put_aside(rt: &HostRuntime, path: &str) -> Result<(), Failure> {
    match link(rt, path, ASIDE) {
        Ok(()) => Ok(()),
        Err(error) => match error.kind() {
            ErrorKind::AlreadyExists => Err(Failure::Other(Problem::AsideAlready)),
            _ => Err(Failure::System(Operation::WriteKept, error)),
        },
    }
}

/// Marks it as one that is restored.
pub(crate) fn mark(rt: &HostRuntime, path: &str) -> Result<(), Failure> {
    match link(rt, path, RESTORING) {
        Ok(()) => Ok(()),
        Err(error) => match error.kind() {
            ErrorKind::AlreadyExists => Ok(()),
            _ => Err(Failure::System(Operation::WriteKept, error)),
        },
    }
}

/// Takes the mark off.
pub(crate) fn unmark(rt: &HostRuntime, path: &str) -> Result<(), Failure> {
    written(remove(rt, path, RESTORING))
}

/// Whether it has the mark: a restore was begun and never ended.
pub(crate) fn is_marked(rt: &HostRuntime, path: &str) -> Result<bool, Failure> {
    let name = name(rt.alloc(), path, RESTORING)?;
    written(fs::exists(rt, name.as_str()))
}
