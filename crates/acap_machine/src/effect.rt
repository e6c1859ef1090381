//! `Effect`: what an event that was made ready will change.
use acap_commands::ContextNames;
use acap_entries::{Change, ContextName, Moment, UserName};
use acap_inherit::Prepared;
use acap_views::{Delta, NewContext};

/// What is yet to be put in place of an event that was made ready (RFC 2244 sections 2, 3.3 and 6).
#[derive(Drop)]
pub(crate) enum Effect {
    /// Nothing.
    Nothing,
    /// A user takes the seat.
    Enters(UserName),
    /// The store changes, and with it the index of heirs and the contexts of all seats.
    Changes(Change, Prepared, Delta),
    /// A context is put at the seat.
    Makes(NewContext),
    /// The context of that name is freed.
    Frees(ContextName),
    /// The client was sent all of the contexts of these names, up to that moment.
    Tells(ContextNames, Moment),
    /// The client was sent all that waited of its contexts.
    Drains,
    /// The user leaves the seat.
    Leaves,
}
