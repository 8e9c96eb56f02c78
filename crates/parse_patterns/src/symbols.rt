ghost use Rattle.std.specs.Prelude.{◌≡◌, codes};
ghost use Rattle.parse_patterns.specs.Symbols as spec;

use scan_tokens::TokenKind;

/// What a token is to the grammar of patterns.
#[derive(Clone, Copy, Debug, PartialEq, Eq)]
pub enum Symbol {
    Id,
    Number,
    /// Any literal but a number.
    Literal,
    Underscore,
    Colon,
    At,
    OpenRound,
    CloseRound,
    Comma,
    Dot,
    Other,
}

fn delimiter(word: &[u8]) -> Symbol
    ensures { result ≡ spec.delimiter_symbol word.now }
{
    match word {
        b"(" => Symbol::OpenRound,
        b")" => Symbol::CloseRound,
        b"," => Symbol::Comma,
        b"." => Symbol::Dot,
        _ => Symbol::Other,
    }
}

fn sign(word: &[u8]) -> Symbol
    ensures { result ≡ spec.sign_symbol word.now }
{
    match word {
        b"_" => Symbol::Underscore,
        b":" => Symbol::Colon,
        b"@" => Symbol::At,
        _ => Symbol::Other,
    }
}

fn reserved(word: &[u8]) -> Symbol
    ensures { result ≡ spec.word_symbol word.now }
{
    match word {
        b"true" | b"false" | b"null" => Symbol::Literal,
        _ => Symbol::Other,
    }
}

/// What a token with this word is.
pub fn read_symbol(kind: TokenKind, word: &[u8]) -> Symbol
    ensures { result ≡ spec.symbol_of kind word.now }
{
    match kind {
        TokenKind::Id | TokenKind::BackId => Symbol::Id,
        TokenKind::Int | TokenKind::Long => Symbol::Number,
        TokenKind::Char | TokenKind::Str => Symbol::Literal,
        TokenKind::Word => reserved(word),
        TokenKind::Sign => sign(word),
        TokenKind::Delimiter => delimiter(word),
        TokenKind::Error => Symbol::Other,
    }
}
