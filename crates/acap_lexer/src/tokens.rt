//! `Tokens`: the tokens of a command.

ghost use Rattle.std.specs.Prelude.{◌≡◌, ◌<◌, ◌==◌, [], length, slice_get, option_map};
ghost use Rattle.acap_lexer.specs.Places.{tokens_in, AreWithin};

use crate::draft::Draft;
use crate::kind::{Kind, TokenPlace};
use std::alloc::Global;
use std::marker::Model;
use std::ops::Range;

/// The tokens of a command, of which the tag is the first, or of an answer line, which has no tag (RFC 2244,
/// section 2.2).
#[derive(Drop)]
pub struct Tokens {
    text: Vec<u8>,
    places: Vec<TokenPlace>,
}

impl Model for Tokens {
    ghost use Rattle.std.specs.Prelude.{List};
    ghost use Rattle.acap_lexer.specs.Token.{Token};
    ghost use Rattle.acap_lexer.specs.Places.{tokens_in, AreWithin};

    ghost Value = { List Token };

    ghost view = { λ a. tokens_in a.text.items a.places.items };

    ghost invariant = { λ a. AreWithin a.text.items a.places.items };
}

impl Tokens {
    /// The tokens that lie in a text.
    pub(crate) fn of_places(text: Vec<u8>, places: Vec<TokenPlace>) -> Tokens
        requires { AreWithin text.items places.items }
        ensures { result ≡ tokens_in text.items places.items }
    {
        Tokens { text, places }
    }

    /// No token yet, in their memory, unless that is more than is kept.
    pub(crate) fn clear(self, alloc: Global) -> Draft
        ensures { result ≡ record { text = []; tokens = [] } }
    {
        Draft::within(alloc, self.text, self.places)
    }

    /// How many tokens there are.
    pub fn len(&self) -> usize
        ensures { result ≡ length self.now }
    {
        self.places.len()
    }

    /// Whether there is none, as in an empty answer line.
    pub fn is_empty(&self) -> bool
        ensures { result ≡ (length self.now == 0) }
    {
        self.places.is_empty()
    }

    /// What the token is.
    pub fn kind(&self, index: usize) -> Kind
        requires { index < length self.now }
        ensures { option_map (λ t. t.kind) (slice_get self.now index) ≡ Some result }
    {
        self.places[index].kind
    }

    /// Where the token's own octets lie in the command, counted from its first: for a string its quotes, or its
    /// literal place and CR LF, are counted.
    pub fn span(&self, index: usize) -> Range<usize>
        requires { index < length self.now }
        ensures start { option_map (λ t. t.start) (slice_get self.now index) ≡ Some result.start }
        ensures end { option_map (λ t. t.end) (slice_get self.now index) ≡ Some result.end }
    {
        let place = self.places[index];
        place.start as usize..place.end as usize
    }

    /// The octets that the token stands for: of a string without quotes and escapes, of a parenthesis none.
    pub fn value(&self, index: usize) -> &[u8]
        requires { index < length self.now }
        ensures { option_map (λ t. t.value) (slice_get self.now index) ≡ Some result.now }
    {
        let place = self.places[index];
        &self.text[place.value_start as usize..place.value_end as usize]
    }
}
