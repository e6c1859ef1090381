//! Login by CRAM-MD5 (RFC 2195): the challenge, the digest of a secret (RFC 2104, RFC 1321), and the user whom an
//! answer logs in.
#![tactic(auto)]

mod challenges;
mod checking;
mod hmac;
pub mod laws;
mod users;

pub use challenges::challenge;
pub use checking::check;
pub use hmac::digest;
pub use users::Users;
