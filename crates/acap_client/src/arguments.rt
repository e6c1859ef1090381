//! The arguments that a line has after its words: numbers, names, codes and texts.

ghost use Rattle.std.specs.Prelude.{◌≡◌, Some, None, is_some, option_map, if◌then◌else◌};
ghost use Rattle.std.specs.List.{list_all};
ghost use Rattle.acap_lexer.specs.Octets.{is_digit as is_digit_octet};
ghost use Rattle.acap_grammar.specs.Lines.{number_of, texts_of, value_of};
ghost use Rattle.acap_client.specs.Arguments.{data_in, value_in, number_at, text_alone, coded_at, code_in};

use crate::counting::all_digits;
use crate::data::Data;
use crate::number::Number;

/// Whether octets are decimal digits, one at least.
#[tactic(auto, unfolding(acap_grammar::specs::Lines::number_of))]
fn is_number(digits: &[u8]) -> bool
    ensures { number_of digits.now ≡ (if result then Some (value_of digits.now) else None) }
{
    !digits.is_empty() && all_digits(digits)
}

/// The number that comes first, if one does, and the data after it.
pub(crate) fn number<'a>(args: &Data<'a>) -> Option<(Number<'a>, Data<'a>)>
    ensures { option_map (λ x. (value_in x.0, data_in x.1)) result ≡ number_at (data_in args.now) }
{
    let (digits, rest) = args.word()?;
    if is_number(digits) {
        Some((Number { digits }, rest))
    } else {
        None
    }
}

/// The string that comes first, if one does and nothing follows it.
pub(crate) fn text_alone<'a>(args: &Data<'a>) -> Option<&'a [u8]>
    ensures { option_map (λ text. text.now) result ≡ text_alone (data_in args.now) }
{
    let (text, rest) = args.text()?;
    if rest.is_empty() { Some(text) } else { None }
}

/// The data of the code that comes first, if one does, and the text that is all the rest.
pub(crate) fn coded<'a>(args: &Data<'a>) -> Option<(Option<Data<'a>>, &'a [u8])>
    ensures { option_map (λ x. (code_in x.0, x.1.now)) result ≡ coded_at (data_in args.now) }
{
    let Some((code, rest)) = args.group() else {
        return Some((None, text_alone(args)?));
    };
    if code.is_empty() {
        return None;
    }
    Some((Some(code), text_alone(&rest)?))
}

/// Whether all of them are strings.
pub(crate) fn are_texts(args: &Data) -> bool
    ensures { result ≡ is_some (texts_of (data_in args.now)) }
{
    let mut left = *args;
    'texts: while let Some((_, rest)) = left.text() {
        left = rest;
    }
    left.is_empty()
}
