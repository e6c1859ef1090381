//! The tokens of a command that is being read, and their octets.

ghost use Rattle.std.specs.Prelude.{◌≡◌, ◌<◌, ◌≤◌, ◌+◌, ◌-◌, ◌==◌, ◌++◌, ◌∷◌, [], length, take, slice_get, option_map, OnErr, IfOk};
ghost use Rattle.acap_lexer.specs.Adding.{Adds, lying};
ghost use Rattle.acap_lexer.specs.Part.{last_kind, with_token};
ghost use Rattle.acap_lexer.specs.Places.{LiesIn};
ghost use Rattle.acap_lexer.specs.Printing.{Grows};
ghost use Rattle.acap_lexer.specs.Reading.{Gives, as_string, string_at};

use crate::fault::{LexError, Memory};
use crate::kind::{Kind, TokenPlace};
use crate::strings::{plain_string_at, string_at};
use crate::tokens::Tokens;
use std::alloc::Global;
use std::marker::Model;
use std::ops::Range;

/// The octets of a part that make a token, as a guess by which room is made at once.
const OCTETS_A_TOKEN: usize = 2;

/// The fewest tokens that room is made for.
const TOKENS_AT_ONCE: usize = 4;

/// The most octets of values whose memory is kept for the next command.
const OCTETS_KEPT: usize = 16384;

/// The most tokens whose memory is kept for the next command: as many as room is made for after a part.
const TOKENS_KEPT: usize = 4100;

/// The greatest index that is kept of a token. One after it is refused as want of memory; no command comes there.
const INDEX_LIMIT: usize = 4294967295;

/// The tokens of a command so far, and the text in which their values lie: copies of its parts and literals, and what
/// strings with escapes stand for.
#[derive(Drop)]
pub(crate) struct Draft {
    text: Vec<u8>,
    places: Vec<TokenPlace>,
}

impl Model for Draft {
    ghost use Rattle.acap_lexer.specs.Drafting.{Drafted};
    ghost use Rattle.acap_lexer.specs.Places.{tokens_in, AreWithin};

    ghost Value = { Drafted };

    ghost view = { λ a. record { text = a.text.items; tokens = tokens_in a.text.items a.places.items } };

    ghost invariant = { λ a. AreWithin a.text.items a.places.items };
}

impl Draft {
    /// No token yet. Takes no memory.
    pub(crate) fn new(alloc: Global) -> Draft
        ensures { result ≡ record { text = []; tokens = [] } }
    {
        Draft {
            text: Vec::new(alloc),
            places: Vec::new(alloc),
        }
    }

    /// No token yet, in memory that was used before, unless that is more than is kept.
    pub(crate) fn within(alloc: Global, text: Vec<u8>, places: Vec<TokenPlace>) -> Draft
        ensures { result ≡ record { text = []; tokens = [] } }
    {
        if text.capacity() > OCTETS_KEPT || places.capacity() > TOKENS_KEPT {
            return Draft::new(alloc);
        }
        let mut text = text;
        let mut places = places;
        text.clear();
        places.clear();
        Draft { text, places }
    }

    /// No token, in the memory of these, unless that is more than is kept.
    pub(crate) fn clear(self, alloc: Global) -> Draft
        ensures { result ≡ record { text = []; tokens = [] } }
    {
        Draft::within(alloc, self.text, self.places)
    }

    /// The tokens.
    pub(crate) fn finish(self) -> Tokens
        ensures { result ≡ self.tokens }
    {
        Tokens::of_places(self.text, self.places)
    }

    /// Whether there is no token.
    pub(crate) fn is_empty(&self) -> bool
        ensures { result ≡ (length self.now.tokens == 0) }
    {
        self.places.is_empty()
    }

    /// What the last token is, if there is one.
    pub(crate) fn last_kind(&self) -> Option<Kind>
        ensures { result ≡ last_kind self.now.tokens }
    {
        self.places.last().map(|place| place.kind)
    }

    /// The octets that the first token stands for.
    pub(crate) fn first_value(&self) -> &[u8]
        requires { 0 < length self.now.tokens }
        ensures { option_map (λ t. t.value) (slice_get self.now.tokens 0) ≡ Some result.now }
    {
        let place = self.places[0];
        &self.text[place.value_start as usize..place.value_end as usize]
    }

    /// Copies a part after the text, with room for some tokens, and gives the index after it there.
    pub(crate) fn copy_part(&mut self, part: &[u8]) -> Result<usize, Memory>
        ensures text { IfOk result (λ behind. self.new.text ≡ self.old.text ++ part.now) }
        ensures behind { IfOk result (λ behind. behind ≡ length self.new.text) }
        ensures tokens { self.new.tokens ≡ self.old.tokens }
    {
        self.places
            .reserve(part.len() / OCTETS_A_TOKEN + TOKENS_AT_ONCE)?;
        self.text.extend_from_slice(part)?;
        Ok(self.text.len())
    }

    // Adds a token that lies there in the command, whose value is already in the text.
    #[inline]
    fn push_copied(
        &mut self,
        kind: Kind,
        value: Range<usize>,
        span: Range<usize>,
    ) -> Result<(), Memory>
        requires ordered { value.start ≤ value.end }
        requires within { value.end ≤ length self.old.text }
        ensures ok { Adds result self.old.tokens self.new.tokens kind (lying self.old.text value) span }
        ensures text { self.new.text ≡ self.old.text }
        ensures err { OnErr result (self.new ≡ self.old) }
    {
        if value.end > INDEX_LIMIT || span.start > INDEX_LIMIT || span.end > INDEX_LIMIT {
            return Err(Memory);
        }
        self.places.push(TokenPlace {
            kind,
            value_start: value.start as u32,
            value_end: value.end as u32,
            start: span.start as u32,
            end: span.end as u32,
        })?;
        Ok(())
    }

    /// Adds a token that lies there in the command, whose value is the prefix of a text whose copy goes up to the index
    /// `behind`.
    #[tactic(auto, using(crate::proofs::Copies::front_in))]
    pub(crate) fn push_front(
        &mut self,
        kind: Kind,
        text: &[u8],
        len: usize,
        behind: usize,
        span: Range<usize>,
    ) -> Result<(), Memory>
        requires copied { LiesIn self.old.text behind text.now }
        requires within { len ≤ length text.now }
        ensures ok { Adds result self.old.tokens self.new.tokens kind (take len text.now) span }
        ensures text { self.new.text ≡ self.old.text }
        ensures err { OnErr result (self.new ≡ self.old) }
    {
        let start = behind - text.len();
        self.push_copied(kind, start..start + len, span)
    }

    /// Adds a token that lies there in the command, and its value.
    pub(crate) fn push(
        &mut self,
        kind: Kind,
        value: &[u8],
        span: Range<usize>,
    ) -> Result<(), Memory>
        ensures { Adds result self.old.tokens self.new.tokens kind value.now span }
    {
        let start = self.text.len();
        self.text.extend_from_slice(value)?;
        let end = self.text.len();
        self.push_copied(kind, start..end, span)?;
        Ok(())
    }
}

impl Draft {
    /// Adds the quoted string whose octets, after its first quote, are at the beginning of a text that goes up to
    /// the place `end` of the command, and whose copy goes up to the index `behind`. Gives what is left.
    pub(crate) fn push_string<'a>(
        &mut self,
        rest: &'a [u8],
        end: usize,
        behind: usize,
    ) -> Result<&'a [u8], LexError>
        requires within { length rest.now + 1 ≤ end }
        requires copied { LiesIn self.old.text behind rest.now }
        ensures gives { Gives (λ left. (self.new.tokens, left.now)) result
            (with_token self.old.tokens end (34 ∷ rest.now) (as_string (string_at rest.now))) }
        ensures grows { Grows self.old.tokens self.new.tokens }
        ensures text { Grows self.old.text self.new.text }
        ensures within { IfOk result (λ left. length left.now ≤ length rest.now) }
    {
        let Some((len, left)) = plain_string_at(rest) else {
            return self.push_escaped(rest, end);
        };
        let span = end - (rest.len() + 1)..end - left.len();
        self.push_front(Kind::Quoted, rest, len, behind, span)?;
        Ok(left)
    }

    // The same of any string, whose value is added to the text.
    fn push_escaped<'a>(&mut self, rest: &'a [u8], end: usize) -> Result<&'a [u8], LexError>
        requires { length rest.now + 1 ≤ end }
        ensures gives { Gives (λ left. (self.new.tokens, left.now)) result
            (with_token self.old.tokens end (34 ∷ rest.now) (as_string (string_at rest.now))) }
        ensures grows { Grows self.old.tokens self.new.tokens }
        ensures text { Grows self.old.text self.new.text }
        ensures within { IfOk result (λ left. length left.now ≤ length rest.now) }
    {
        let value_start = self.text.len();
        let left = string_at(rest, &mut self.text)?;
        let value_end = self.text.len();
        self.push_copied(
            Kind::Quoted,
            value_start..value_end,
            end - (rest.len() + 1)..end - left.len(),
        )?;
        Ok(left)
    }
}
