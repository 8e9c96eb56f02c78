//! The word of a token.

ghost use Rattle.std.specs.Prelude.{◌≡◌};
ghost use Rattle.parse_parts.specs.Words.{IsCut};
ghost use Rattle.source_grammar.specs.Lexemes.{word_of, bytes_in};

use scan_tokens::{Token, TokenKind};

/// What is written at a token, without its backquotes.
pub fn word_in(text: &str, token: Token) -> &str
    requires { IsCut text.now token }
    ensures { result.now ≡ word_of token.kind (bytes_in text.now token.span) }
{
    let (start, end) = match token.kind {
        TokenKind::BackId => (token.span.start + 1, token.span.end - 1),
        _ => (token.span.start, token.span.end),
    };
    &text[start as usize..end as usize]
}
