//! `Sockets` and `Handles`: the handles of the system that a server takes, as one bound.
use std::alloc::AllocGlobal;
use std::net::{Net, TcpListener, TcpStream};
use std::random::RandomSource;
use std::sync::Wait;
use std::thread::Threads;
use std::time::Clock;

/// Opens the system's TCP sockets.
pub trait Sockets: Net<Listener = TcpListener, Stream = TcpStream> {}

impl<R: Net<Listener = TcpListener, Stream = TcpStream>> Sockets for R {}

/// Starts threads, waits, reads the clock, opens sockets, and gives random octets and memory; threads share it.
pub trait Handles: Threads + Wait + Clock + Sockets + RandomSource + AllocGlobal + Sync {}

impl<R: Threads + Wait + Clock + Sockets + RandomSource + AllocGlobal + Sync> Handles for R {}
