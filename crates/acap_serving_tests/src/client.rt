//! A client over TCP.
use acap_login::digest;
use acap_serving::Sockets;
use std::alloc::Global;
use std::io;
use std::io::{Read, Write};
use std::net::{Shutdown, SocketAddr, TcpStream};
use std::time::Duration;

/// How long a client waits for an answer.
const SECONDS: u64 = 15;

/// A client over TCP, with what it heard and did not look at yet.
#[derive(Drop)]
pub(crate) struct Client {
    alloc: Global,
    stream: TcpStream,
    heard: Vec<u8>,
}

// Where the first line ends that stands in a text, its CR LF included.
fn end_of_line(text: &[u8]) -> Option<usize> {
    let at = text.windows(2).position(|two| two == b"\r\n".as_slice())?;
    at.checked_add(2)
}

// An error in words.
fn wrong(why: &'static str) -> io::Error {
    io::Error::other(why)
}

// The challenge that a line holds.
fn challenge_in(line: &[u8]) -> Option<&[u8]> {
    line.strip_prefix(b"+ \"")?.strip_suffix(b"\"\r\n")
}

// What a user answers to a challenge (RFC 2195), as a line.
fn answer_of(alloc: Global, user: &[u8], secret: &[u8], challenge: &[u8]) -> io::Result<Vec<u8>> {
    let mut answer = Vec::from_slice(alloc, b"\"")?;
    answer.extend_from_slice(user)?;
    answer.extend_from_slice(b" ")?;
    answer.extend_from_slice(&digest(secret, challenge))?;
    answer.extend_from_slice(b"\"\r\n")?;
    Ok(answer)
}

impl Client {
    /// A client that has connected.
    pub(crate) fn connect<R: Sockets>(rt: &R, alloc: Global, at: SocketAddr) -> io::Result<Client> {
        let stream = TcpStream::connect(rt, at)?;
        stream.set_read_timeout(Some(Duration::from_secs(SECONDS)))?;
        stream.set_nodelay(true)?;
        Ok(Client {
            alloc,
            stream,
            heard: Vec::new(alloc),
        })
    }

    /// Sends octets.
    pub(crate) fn send(&self, octets: &[u8]) -> io::Result<()> {
        (&self.stream).write_all(octets)
    }

    /// Sends octets one by one.
    pub(crate) fn send_slowly(&self, octets: &[u8]) -> io::Result<()> {
        for octet in octets {
            self.send(&[*octet])?;
        }
        Ok(())
    }

    /// Says that it will send no more.
    pub(crate) fn finish(&self) -> io::Result<()> {
        self.stream.shutdown(Shutdown::Write)
    }

    /// From now on it gives up where the other side takes nothing for a while.
    pub(crate) fn set_impatient(&self) -> io::Result<()> {
        self.stream
            .set_write_timeout(Some(Duration::from_millis(300)))
    }

    // Hears more, and says whether there was any.
    fn hear(&mut self) -> io::Result<bool> {
        let mut buffer = [0u8; 4096];
        let count = (&self.stream).read(&mut buffer)?;
        self.heard.extend_from_slice(&buffer[..count])?;
        Ok(count > 0)
    }

    /// The next line, its CR LF included.
    pub(crate) fn line(&mut self) -> io::Result<Vec<u8>> {
        for _ in 0..1_000_000 {
            if let Some(end) = end_of_line(&self.heard) {
                let line = Vec::from_slice(self.alloc, &self.heard[..end.min(self.heard.len())])?;
                self.heard = Vec::from_slice(self.alloc, &self.heard[end.min(self.heard.len())..])?;
                return Ok(line);
            }
            if !self.hear()? {
                return Err(wrong("the server closed"));
            }
        }
        Err(wrong("a line without an end"))
    }

    /// Whether the next lines are these.
    pub(crate) fn hears(&mut self, wanted: &[u8]) -> io::Result<bool> {
        for _ in 0..1_000_000 {
            if self.heard.len() >= wanted.len() {
                let same = self.heard.starts_with(wanted);
                self.heard = Vec::from_slice(self.alloc, &self.heard[wanted.len()..])?;
                return Ok(same);
            }
            if !self.hear()? {
                return Ok(false);
            }
        }
        Ok(false)
    }

    /// Sends this, and says whether that is what comes then.
    pub(crate) fn is_answered(&mut self, said: &[u8], wanted: &[u8]) -> io::Result<bool> {
        self.send(said)?;
        self.hears(wanted)
    }

    /// All that the server still says until it closes.
    pub(crate) fn rest(&mut self) -> io::Result<&[u8]> {
        for _ in 0..1_000_000 {
            if !self.hear()? {
                break;
            }
        }
        Ok(self.heard.as_slice())
    }

    /// Asks to log in (RFC 2195) once it was greeted, and hears the challenge.
    pub(crate) fn challenge(&mut self) -> io::Result<Vec<u8>> {
        self.send(b"L1 AUTHENTICATE \"CRAM-MD5\"\r\n")?;
        let line = self.line()?;
        match challenge_in(&line) {
            Some(challenge) => Ok(Vec::from_slice(self.alloc, challenge)?),
            None => Err(wrong("no challenge")),
        }
    }

    /// Logs in, and says whether that was right.
    pub(crate) fn logs_in(&mut self, user: &[u8], secret: &[u8]) -> io::Result<bool> {
        let challenge = self.challenge()?;
        let answer = answer_of(self.alloc, user, secret, &challenge)?;
        self.is_answered(&answer, b"L1 OK \"AUTHENTICATE done\"\r\n")
    }
}
