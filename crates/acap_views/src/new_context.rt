//! `NewContext`: a context that a SEARCH makes, before it has its place at a seat.

use crate::open_context::OpenContext;
use acap_entries::ContextName;
use std::marker::Model;

/// A context that is made, with its name, and not yet put among those of its session (RFC 2244 section 6.4.1).
#[derive(Drop)]
pub struct NewContext {
    pub(crate) name: ContextName,
    pub(crate) context: OpenContext,
}

impl Model for NewContext {
    ghost use Rattle.acap_views.specs.Answering.{NamedContext, named_code};

    ghost Value = { NamedContext };

    ghost coded = { named_code };

    ghost view = { λ c. record { name = c.name; kept = c.context } };
}
