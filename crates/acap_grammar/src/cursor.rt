//! `Cursor`: the tokens of a line that are still to be read, one by one.

ghost use Rattle.std.specs.Prelude.{◌≡◌, drop, is_none, IfOk};
ghost use Rattle.acap_grammar.specs.Outcome.{Finds, Passes, Reads, ReadsBy};
ghost use Rattle.acap_grammar.specs.Marks.{is_open, is_close, is_string, ends, starts, behind, string_at, behind_word, word_at};
ghost use Rattle.acap_grammar.specs.Rows.{kind_of, IsFirst};

use crate::command_fault::CommandFault;
use crate::grammar_fault::GrammarFault;
use crate::words::Spelled;
use acap_entries::{Label, Value};
use acap_lexer::{Kind, Tokens};
use std::alloc::Global;
use std::marker::Model;

/// The tokens that are left to read: those from an index on. Contracts see the list of them.
#[derive(Drop)]
pub(crate) struct Cursor<'a> {
    alloc: Global,
    tokens: &'a Tokens,
    at: usize,
}

impl<'a> Model for Cursor<'a> {
    ghost use Rattle.std.specs.Prelude.{List, drop};
    ghost use Rattle.acap_lexer.specs.Token.{Token};

    ghost Value = { List Token };

    ghost view = { λ c. drop c.at c.tokens.now };
}

/// A token.
#[derive(Drop)]
pub(crate) struct Piece<'a> {
    pub(crate) kind: Kind,
    pub(crate) value: &'a [u8],
    pub(crate) start: usize,
    pub(crate) end: usize,
}

impl<'a> Cursor<'a> {
    /// The tokens from an index on.
    pub(crate) fn new(alloc: Global, tokens: &'a Tokens, at: usize) -> Cursor<'a>
        ensures { result ≡ drop at tokens.entry.now }
    {
        Cursor { alloc, tokens, at }
    }

    /// Where memory is taken for what is read.
    pub(crate) fn alloc(&self) -> Global {
        self.alloc
    }

    /// The first token, if one is left.
    pub(crate) fn first(&self) -> Option<Piece<'a>>
        ensures { IsFirst result self.now }
    {
        let tokens = self.tokens;
        let at = self.at;
        if at < tokens.len() {
            let span = tokens.span(at);
            Some(Piece {
                kind: tokens.kind(at),
                value: tokens.value(at),
                start: span.start,
                end: span.end,
            })
        } else {
            None
        }
    }

    // What the first token is, if one is left.
    fn kind(&self) -> Option<Kind>
        ensures { result ≡ kind_of self.now }
    {
        Some(self.first()?.kind)
    }

    /// Passes the first token, if one is left.
    #[tactic(auto, using(crate::proofs::Places::passed))]
    pub(crate) fn pass(&mut self)
        ensures { self.new ≡ drop 1 self.old }
    {
        if self.at < self.tokens.len() {
            self.at += 1;
        }
    }
}

// ---- what stands first

impl<'a> Cursor<'a> {
    #[tactic(auto, unfolding(crate::specs::Marks::ends))]
    pub(crate) fn ends(&self) -> bool
        ensures { result ≡ ends self.now }
    {
        self.kind().is_none()
    }

    #[tactic(auto, unfolding(crate::specs::Marks::starts))]
    pub(crate) fn opens(&self) -> bool
        ensures { result ≡ starts is_open self.now }
    {
        matches!(self.kind(), Some(Kind::Open))
    }

    #[tactic(auto, unfolding(crate::specs::Marks::starts))]
    pub(crate) fn closes(&self) -> bool
        ensures { result ≡ starts is_close self.now }
    {
        matches!(self.kind(), Some(Kind::Close))
    }

    #[tactic(auto, unfolding(crate::specs::Marks::starts))]
    pub(crate) fn starts_string(&self) -> bool
        ensures { result ≡ starts is_string self.now }
    {
        matches!(self.kind(), Some(Kind::Quoted | Kind::Literal))
    }

    /// Whether no word that stands for something stands first.
    #[tactic(auto, unfolding(crate::specs::Marks::word_at))]
    pub(crate) fn lacks_word<W: Spelled>(&self) -> bool
        ensures { result ≡ is_none (word_at W.table self.now) }
    {
        match self.first() {
            Some(
                Piece {
                    kind: Kind::Word,
                    value,
                    ..
                },
            ) => W::look_up(value).is_none(),
            _ => true,
        }
    }
}

// ---- what is taken

impl<'a> Cursor<'a> {
    #[tactic(auto, unfolding(crate::specs::Marks::string_at))]
    pub(crate) fn string(&mut self) -> Result<&'a [u8], GrammarFault>
        ensures { ReadsBy (λ text left. (text.now, left)) result self.new (string_at self.old) }
    {
        match self.first() {
            Some(
                Piece {
                    kind: Kind::Quoted | Kind::Literal,
                    value,
                    ..
                },
            ) => {
                self.pass();
                Ok(value)
            }
            _ => Err(GrammarFault::Fault(CommandFault::Arguments)),
        }
    }

    /// Any string, as a value.
    #[tactic(auto, unfolding(crate::specs::Marks::string_at))]
    pub(crate) fn value(&mut self) -> Result<Value, GrammarFault>
        ensures { Reads result self.new (string_at self.old) }
    {
        let text = self.string()?;
        Ok(Value::from_slice(self.alloc(), text)?)
    }

    /// Any string, to be printed or compared.
    #[tactic(auto, unfolding(crate::specs::Marks::string_at))]
    pub(crate) fn label(&mut self) -> Result<Label, GrammarFault>
        ensures { Reads result self.new (string_at self.old) }
    {
        let text = self.string()?;
        Ok(Label::from_slice(self.alloc(), text)?)
    }

    #[tactic(auto, unfolding(crate::specs::Marks::behind))]
    pub(crate) fn pass_open(&mut self) -> Result<(), GrammarFault>
        ensures { ReadsBy (λ _ left. left) result self.new (behind is_open self.old) }
    {
        match self.kind() {
            Some(Kind::Open) => {
                self.pass();
                Ok(())
            }
            _ => Err(GrammarFault::Fault(CommandFault::Arguments)),
        }
    }

    #[tactic(auto, unfolding(crate::specs::Marks::behind))]
    pub(crate) fn pass_close(&mut self) -> Result<(), GrammarFault>
        ensures { ReadsBy (λ _ left. left) result self.new (behind is_close self.old) }
    {
        match self.kind() {
            Some(Kind::Close) => {
                self.pass();
                Ok(())
            }
            _ => Err(GrammarFault::Fault(CommandFault::Arguments)),
        }
    }

    /// What was read, where a parenthesis closes after it. Of any type, as letting a large one go is slow to
    /// prove.
    pub(crate) fn closed<T: Drop>(&mut self, read: T) -> Result<T, GrammarFault>
        ensures left { ReadsBy (λ _ left. left) result self.new (behind is_close self.old) }
        ensures same { IfOk result (λ given. given ≡ read) }
    {
        self.pass_close()?;
        Ok(read)
    }

    /// Passes that word, which is read in any case, if it stands first.
    #[tactic(auto, unfolding(crate::specs::Marks::behind_word))]
    pub(crate) fn pass_word(&mut self, word: &[u8]) -> bool
        ensures { Passes result self.old self.new (behind_word word.now self.old) }
    {
        match self.first() {
            Some(
                Piece {
                    kind: Kind::Word,
                    value,
                    ..
                },
            ) => {
                let is_word = value.eq_ignore_ascii_case(word);
                if is_word {
                    self.pass();
                }
                is_word
            }
            _ => false,
        }
    }

    /// Takes the word that stands first, if it stands for something.
    #[tactic(auto, unfolding(crate::specs::Marks::word_at))]
    pub(crate) fn word<W: Spelled>(&mut self) -> Option<W>
        ensures { Finds result self.old self.new (word_at W.table self.old) }
    {
        match self.first() {
            Some(
                Piece {
                    kind: Kind::Word,
                    value,
                    ..
                },
            ) => {
                let found = W::look_up(value)?;
                self.pass();
                Some(found)
            }
            _ => None,
        }
    }
}
