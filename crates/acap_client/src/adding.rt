//! Adds octets to a token, and tokens to the line that is being read.

ghost use Rattle.std.specs.Prelude.{◌≡◌, [], ◌∷◌, ◌++◌, OnOk, IfOk};
ghost use Rattle.acap_grammar.specs.Lines.{Word, Text};
ghost use Rattle.acap_grammar.specs.Listening.{added, opened, closed, turned};
ghost use Rattle.acap_grammar.specs.Readable.{after};
ghost use Rattle.acap_client.specs.declared.place.Place.TheVariants as places;
ghost use Rattle.acap_client.specs.Drafting.{IsDraft, IsFree, client_of, place_of};
ghost use Rattle.acap_client.specs.Hearing.{ComesTo};

use crate::draft::{Draft, Token};
use crate::due::Step;
use crate::place::Place;
use acap_entries::{Memory, Octets};
use std::alloc::Global;
use std::mem;

/// A draft of which nothing was heard.
pub(crate) fn new_draft(alloc: Global) -> Draft
    ensures client { client_of result ≡ after [] }
    ensures draft { IsDraft result }
{
    Draft {
        tokens: Vec::new(alloc),
        word: Vec::new(alloc),
        depth: 0,
        place: Place::Between,
    }
}

/// Begins a token, of which no octet has come.
pub(crate) fn begin(draft: &mut Draft, place: Place)
    requires free { IsFree place }
    requires draft { IsDraft draft.old }
    ensures client { client_of draft.new ≡ turned (client_of draft.old) (place_of place []) }
    ensures draft { IsDraft draft.new }
    ensures word { draft.new.word.items ≡ [] }
{
    draft.word.clear();
    draft.place = place;
}

/// Adds an octet to the token that has begun.
pub(crate) fn put(draft: &mut Draft, c: u8, place: Place) -> Result<(), Memory>
    requires free { IsFree place }
    requires draft { IsDraft draft.old }
    ensures client { OnOk result
        (let word = draft.old.word.items ++ c ∷ [] in
        client_of draft.new ≡ turned (client_of draft.old) (place_of place word)) }
    ensures draft { OnOk result (IsDraft draft.new) }
    ensures word { OnOk result (draft.new.word.items ≡ draft.old.word.items ++ c ∷ []) }
{
    draft.word.push(c)?;
    draft.place = place;
    Ok(())
}

/// Adds the word that has ended.
pub(crate) fn add_word(alloc: Global, draft: &mut Draft) -> Result<(), Memory>
    requires { IsDraft draft.old }
    ensures client { OnOk result
        (client_of draft.new ≡ added (client_of draft.old) (Word draft.old.word.items)) }
    ensures draft { OnOk result (IsDraft draft.new) }
    ensures place { OnOk result (draft.new.place ≡ places.Ended) }
{
    let word = mem::replace(&mut draft.word, Vec::new(alloc));
    draft.tokens.push(Token::Word(Octets::from_vec(word)))?;
    draft.place = Place::Ended;
    Ok(())
}

/// Adds the string that has ended.
pub(crate) fn add_text(alloc: Global, draft: &mut Draft) -> Result<(), Memory>
    requires { IsDraft draft.old }
    ensures client { OnOk result
        (client_of draft.new ≡ added (client_of draft.old) (Text draft.old.word.items)) }
    ensures draft { OnOk result (IsDraft draft.new) }
{
    let text = mem::replace(&mut draft.word, Vec::new(alloc));
    draft.tokens.push(Token::Text(Octets::from_vec(text)))?;
    draft.place = Place::Ended;
    Ok(())
}

/// Adds `(`.
pub(crate) fn open(draft: &mut Draft) -> Result<(), Memory>
    requires { IsDraft draft.old }
    ensures client { OnOk result (client_of draft.new ≡ opened (client_of draft.old)) }
    ensures draft { OnOk result (IsDraft draft.new) }
{
    let depth = draft.depth + 1;
    draft.tokens.push(Token::Open)?;
    draft.depth = depth;
    draft.place = Place::Opened;
    Ok(())
}

/// Adds `)`, if a parenthesis is open.
pub(crate) fn close(draft: &mut Draft) -> Result<Step, Memory>
    requires { IsDraft draft.old }
    ensures { IfOk result (λ step. ComesTo (closed (client_of draft.old)) draft.new step) }
{
    if draft.depth == 0 {
        return Ok(Step::Lost);
    }
    let depth = draft.depth - 1;
    draft.tokens.push(Token::Close)?;
    draft.depth = depth;
    draft.place = Place::Ended;
    Ok(Step::Goes)
}
