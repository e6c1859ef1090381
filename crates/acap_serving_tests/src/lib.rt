//! Tests of sessions that run as tasks: over wires in memory, several on several threads, and of a server with clients over loopback. Each
//! ends by itself.
#![tactic(auto)]

#[cfg(test)]
mod calling;
#[cfg(test)]
mod calls;
#[cfg(test)]
mod client;
#[cfg(test)]
mod devices;
#[cfg(test)]
mod failing;
#[cfg(test)]
mod gate;
#[cfg(test)]
mod meeting;
#[cfg(test)]
mod pieces;
#[cfg(test)]
mod places;
#[cfg(test)]
mod ringing;
#[cfg(test)]
mod server;
#[cfg(test)]
mod serving;
#[cfg(test)]
mod sources;
#[cfg(test)]
mod stage;
#[cfg(test)]
mod together;
#[cfg(test)]
mod workers;
