//! A server on a thread of its own, beside its clients.
use crate::meeting::Meeting;
use acap_serving::{ServeFault, Setup, Sockets, serve_at};
use acap_settings::Settings;
use std::alloc::{AllocGlobal, Global};
use std::net::{Net, SocketAddr, TcpListener, TcpStream};
use std::random::RandomSource;
use std::sync::Wait;
use std::sync::atomic::{AtomicBool, Ordering};
use std::thread::Threads;
use std::time::{Clock, Duration};
use std::{io, thread};

/// The settings of a server on three workers, but for the number of its sessions.
const FRONT: &str =
    "listen = \"127.0.0.1:0\"\nhost = \"localhost\"\nworkers = 3\nturns = 1000000\nadministrators = [\"root\"]\n";

/// The users of a server.
const USERS: &str = "[users]\njoe = \"secret\"\nann = \"hush\"\n";

/// What a server is made of that ends after `sessions` sessions.
pub(crate) fn setup_of(
    alloc: Global,
    sessions: u32,
    start: Option<&[u8]>,
) -> Result<Setup, ServeFault> {
    let text = format!(in alloc; "{FRONT}sessions = {sessions}\n{USERS}")?;
    let start = match start {
        Some(octets) => Some(Vec::from_slice(alloc, octets)?),
        None => None,
    };
    let settings = Settings::read(alloc, text.as_str())?;
    Ok(Setup { settings, start })
}

// Connects and goes away again, until the server has ended.
fn knock<R: Clock + Sockets>(rt: &R, at: SocketAddr, over: &AtomicBool) {
    for _ in 0..1000 {
        if over.load(Ordering::SeqCst) {
            return;
        }
        let _ = TcpStream::connect(rt, at);
        thread::sleep(rt, Duration::from_millis(5));
    }
}

/// Runs a server beside the clients of a meeting, and says whether all came true and it ended well. Where the clients leave it
/// sessions, those are used up.
pub(crate) fn is_served<R>(rt: &R, meeting: &Meeting) -> io::Result<bool>
where
    R: Threads
        + Wait
        + Clock
        + Net<Listener = TcpListener, Stream = TcpStream>
        + RandomSource
        + AllocGlobal
        + Sync,
{
    let listener = TcpListener::bind(rt, "127.0.0.1:0")?;
    let at = listener.local_addr()?;
    let over = AtomicBool::new(false);
    let Ok(setup) = setup_of(rt.alloc(), meeting.sessions, meeting.start) else {
        return Ok(false);
    };
    let (ended, content) = thread::join(
        rt,
        || {
            let ended = serve_at(rt, setup, listener).is_ok();
            over.store(true, Ordering::SeqCst);
            ended
        },
        || {
            let content = meeting.comes_true(rt, at);
            knock(rt, at, &over);
            content
        },
    );
    Ok(ended && content?)
}
