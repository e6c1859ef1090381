//! `Response`: a line of the server, as its tokens.

use crate::data::Data;
use crate::draft::Token;
use crate::line::Line;
use crate::saying::line_of;
use std::marker::Model;

/// A line from the server (RFC 2244 section 2.2): its tokens, each with the octets that it stands for. Contracts see
/// the list of them.
#[derive(Drop)]
pub struct Response {
    tokens: Vec<Token>,
}

impl Model for Response {
    ghost use Rattle.std.specs.Prelude.{List};
    ghost use Rattle.acap_client.specs.declared.draft.Token.{Token};

    ghost Value = { List Token };

    ghost view = { λ r. r.tokens.items };
}

impl Response {
    ghost use Rattle.std.specs.Prelude.{◌≡◌};
    ghost use Rattle.acap_grammar.specs.Lines.{line_of};
    ghost use Rattle.acap_client.specs.Arguments.{data_in};
    ghost use Rattle.acap_client.specs.Data.{data_of};
    ghost use Rattle.acap_client.specs.Saying.{Says};

    pub(crate) fn new(tokens: Vec<Token>) -> Response
        ensures { result ≡ tokens.items }
    {
        Response { tokens }
    }

    /// Its data, to be read one by one.
    pub fn data(&self) -> Data<'_>
        ensures { data_in result ≡ data_of self.now }
    {
        Data::new(&self.tokens)
    }

    /// What it says, if it is a line of the protocol (RFC 2244 sections 2.2, 3.6 and 6). Takes no memory.
    pub fn line(&self) -> Option<Line<'_>>
        ensures { Says result (line_of (data_of self.now)) }
    {
        line_of(&self.data())
    }

    /// The tokens, in their order.
    pub fn tokens(&self) -> &[Token]
        ensures { result.now ≡ self.now }
    {
        &self.tokens
    }
}
