//! The octets that a line of a row file stands for.
//!
//! `\\`, `\{`, `\}` and `\*` stand for their second character, `\n`, `\r` and `\t` for line feed, carriage
//! return and tab, and `\xHH` for an octet in hexadecimal. `{N*TEXT}` is TEXT, N times, where `\#`
//! stands for how many came before. A line's end comes after it, unless its last character is a backslash
//! that stands alone: where a line ends in several, they are pairs from the left. Where a line is of another
//! form, or memory is refused, the answer is None.
ghost use Rattle.std.specs.Prelude.{◌≡◌};
ghost use Rattle.acap_rows.specs.Endings as rule;

// What a hexadecimal digit counts.
fn digit(octet: u8) -> Option<u8> {
    match octet {
        b'0'..=b'9' => Some(octet - b'0'),
        b'a'..=b'f' => Some(octet - b'a' + 10),
        _ => None,
    }
}

// The octet that a letter after a backslash stands for.
fn unescape(letter: u8) -> Option<u8> {
    match letter {
        b'\\' | b'{' | b'}' | b'*' => Some(letter),
        b'n' => Some(b'\n'),
        b'r' => Some(b'\r'),
        b't' => Some(b'\t'),
        _ => None,
    }
}

// Adds the octets of what a text begins with, and gives the text after that.
fn add_first<'a>(text: &'a [u8], number: usize, out: &mut Vec<u8>) -> Option<&'a [u8]> {
    match text {
        [b'\\', b'#', behind @ ..] => {
            let digits = number.to_string(*out.allocator()).ok()?;
            out.extend_from_slice(digits.as_bytes()).ok()?;
            Some(behind)
        }
        [b'\\', b'x', high, low, behind @ ..] => {
            let octet = digit(*high)?.wrapping_mul(16).wrapping_add(digit(*low)?);
            out.push(octet).ok()?;
            Some(behind)
        }
        [b'\\', letter, behind @ ..] => {
            out.push(unescape(*letter)?).ok()?;
            Some(behind)
        }
        [octet, behind @ ..] => {
            out.push(*octet).ok()?;
            Some(behind)
        }
        [] => Some(text),
    }
}

// Adds the octets of a text without repetitions, before which `number` came.
fn add_plain(text: &[u8], number: usize, out: &mut Vec<u8>) -> Option<()> {
    let mut rest = text;
    for _ in 0..text.len() {
        rest = add_first(rest, number, out)?;
    }
    Some(())
}

// Where the first octet of that kind is that no backslash stands before.
fn place_of(text: &[u8], wanted: u8) -> Option<usize> {
    let mut is_escaped = false;
    for (place, octet) in text.iter().enumerate() {
        if *octet == wanted && !is_escaped {
            return Some(place);
        }
        is_escaped = *octet == b'\\' && !is_escaped;
    }
    None
}

// What stands before the first octet of that kind that no backslash stands before, and what stands after it.
fn cut_at(text: &[u8], wanted: u8) -> Option<(&[u8], &[u8])> {
    let (front, behind) = text.split_at_checked(place_of(text, wanted)?)?;
    Some((front, behind.get(1..)?))
}

// Of a text that begins with a repetition: how often what is repeated, and the text after.
fn repetition(text: &[u8]) -> Option<(usize, &[u8], &[u8])> {
    let (digits, behind) = cut_at(text.strip_prefix(b"{")?, b'*')?;
    let count = std::str::from_utf8(digits).ok()?.parse().ok()?;
    let (repeated, behind) = cut_at(behind, b'}')?;
    Some((count, repeated, behind))
}

// Adds the octets of a text with repetitions.
fn add_text(text: &[u8], out: &mut Vec<u8>) -> Option<()> {
    let mut rest = text;
    for _ in 0..text.len() {
        match repetition(rest) {
            Some((count, repeated, behind)) => {
                for number in 0..count {
                    add_plain(repeated, number, out)?;
                }
                rest = behind;
            }
            None => rest = add_first(rest, 0, out)?,
        }
    }
    Some(())
}

// Whether a line ends in a backslash that stands alone. Those before it are pairs, each an escaped backslash.
fn ends_alone(line: &[u8]) -> bool
    ensures { result ≡ rule.ends_alone line.now }
{
    let backslashes = line.iter().rev().take_while(|octet| **octet == b'\\');
    backslashes.count() % 2 == 1
}

/// Adds the octets of a line, and a line's end, unless the line ends in a backslash that stands alone.
pub(crate) fn add_line(line: &[u8], end: &[u8], out: &mut Vec<u8>) -> Option<()> {
    match line.strip_suffix(b"\\") {
        Some(text) if ends_alone(line) => add_text(text, out),
        _ => {
            add_text(line, out)?;
            out.extend_from_slice(end).ok()
        }
    }
}
