//! A test of the answers of a stream in pieces, which no program asks for: a literal is answered where it lies.

use acap_lexer::{LexFault, Lexed, Mode, Tokens, answers};

/// A command with a literal, and one that is too long, in pieces that end anywhere.
const PIECES: [&[u8]; 4] = [b"A1 X {5}\r", b"\nhel", b"lo\r\nA2 {262145}", b"\r\nA3\r\n"];

// Whether the third token is the literal, which lies there.
fn has_literal(line: &Tokens) -> bool {
    line.len() == 3 && line.value(2) == b"hello".as_slice() && line.span(2).start == 5
}

// Whether that is answered: a continuation, the line, and the fault after which nothing is read.
fn is_whole(said: &[Lexed]) -> bool {
    match said {
        [
            Lexed::Plus,
            Lexed::Line(line),
            Lexed::Fatal(LexFault::CommandTooLong),
        ] => has_literal(line),
        _ => false,
    }
}

#[test]
fn answers_pieces(rt: HostRuntime) {
    let said = answers(rt.alloc(), &[Mode::Command; 3], &PIECES);
    assert!(rt; said.is_ok_and(|said| is_whole(said.as_slice())));
}
