//! Tests through public calls, from the lexer to sessions, contexts and stories: of what no law and no row says, and of the calls that
//! no program makes.
#![tactic(auto)]

#[cfg(test)]
mod client_parts;
#[cfg(test)]
mod context_client;
#[cfg(test)]
mod counting;
#[cfg(test)]
mod dice;
#[cfg(test)]
mod failing;
#[cfg(test)]
mod follower;
#[cfg(test)]
mod homes;
#[cfg(test)]
mod inherited;
#[cfg(test)]
mod lexer;
#[cfg(test)]
mod machine;
#[cfg(test)]
mod opened;
#[cfg(test)]
mod parts;
#[cfg(test)]
mod pipe;
#[cfg(test)]
mod random_changes;
#[cfg(test)]
mod ranked;
#[cfg(test)]
mod searched;
#[cfg(test)]
mod sessions;
#[cfg(test)]
mod settings;
#[cfg(test)]
mod sharing;
#[cfg(test)]
mod stories;
#[cfg(test)]
mod touched;
#[cfg(test)]
mod work;
#[cfg(test)]
mod world;
#[cfg(test)]
mod wrong;
