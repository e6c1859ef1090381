//! The data of an ENTRY line, read item by item.

ghost use Rattle.std.specs.Prelude.{◌≡◌, option_map, IfOk};
ghost use Rattle.acap_grammar.specs.Lines.{group};
ghost use Rattle.acap_client.specs.Data.{data_of};
ghost use Rattle.acap_client.specs.Arguments.{data_in, are_none, word_at, text_at, group_at, outside};

use crate::draft::Token;
use acap_entries::{Copying, Memory};
use std::alloc::Global;

/// Data of a line that are left to read (RFC 2244 section 2.2): all of them, or those of a parenthesis.
#[derive(Clone, Copy)]
pub struct Data<'a> {
    tokens: &'a [Token],
}

/// The tokens after the parenthesis in which these stand: none if it doesn't close.
fn skip(tokens: &[Token]) -> &[Token]
    ensures { data_of result.now ≡ outside tokens.now }
{
    let mut left = tokens;
    let mut depth: usize = 0;
    'tokens: while let Some((first, rest)) = left.split_first() {
        left = rest;
        match first {
            Token::Open => depth += 1,
            Token::Close if depth == 0 => return rest,
            Token::Close => depth -= 1,
            _ => {}
        }
    }
    &[]
}

impl<'a> Data<'a> {
    /// The data that these tokens stand for.
    pub(crate) fn new(tokens: &'a [Token]) -> Data<'a>
        ensures { data_in result ≡ data_of tokens.entry.now }
    {
        Data { tokens }
    }

    /// Whether none is left.
    pub fn is_empty(&self) -> bool
        ensures { result ≡ are_none (data_in self.now) }
    {
        match self.tokens.first() {
            None | Some(Token::Close) => true,
            _ => false,
        }
    }

    /// The word that comes first, if one does, and the data after it.
    pub fn word(&self) -> Option<(&'a [u8], Data<'a>)>
        ensures { option_map (λ x. (x.0.now, data_in x.1)) result ≡ word_at (data_in self.now) }
    {
        let (first, tokens) = self.tokens.split_first()?;
        match first {
            Token::Word(word) => Some((word.as_slice(), Data { tokens })),
            _ => None,
        }
    }

    /// The string that comes first, if one does, and the data after it.
    pub fn text(&self) -> Option<(&'a [u8], Data<'a>)>
        ensures { option_map (λ x. (x.0.now, data_in x.1)) result ≡ text_at (data_in self.now) }
    {
        let (first, tokens) = self.tokens.split_first()?;
        match first {
            Token::Text(text) => Some((text.as_slice(), Data { tokens })),
            _ => None,
        }
    }

    /// The data of the parenthesis that comes first, if one does, and the data after it.
    pub fn group(&self) -> Option<(Data<'a>, Data<'a>)>
        ensures { option_map (λ x. (group (data_in x.0), data_in x.1)) result ≡ group_at (data_in self.now) }
    {
        let (first, tokens) = self.tokens.split_first()?;
        match first {
            Token::Open => {
                let after = skip(tokens);
                Some((Data { tokens }, Data { tokens: after }))
            }
            _ => None,
        }
    }

    /// Tokens of their own that stand for the same data. Fails only for want of memory.
    pub(crate) fn copy_tokens(&self, alloc: Global) -> Result<Vec<Token>, Memory>
        ensures { IfOk result (λ made. data_of made.items ≡ data_in self.now) }
    {
        let mut made = Vec::with_capacity(alloc, self.tokens.len())?;
        for token in self.tokens {
            made.push(token.copy()?)?;
        }
        Ok(made)
    }
}
