ghost use Rattle.std.specs.Prelude.{◌≡◌, codes};
ghost use Rattle.scan_tokens.specs.Words.{double_arrow};
ghost use Rattle.parse_parts.specs.Symbols.{delimiter_symbol, symbol_of};

use scan_tokens::TokenKind;

/// What a token is to the grammar of types.
#[derive(Clone, Copy, Debug, PartialEq, Eq)]
pub enum Symbol {
    Id,
    OpenRound,
    CloseRound,
    OpenSquare,
    CloseSquare,
    Comma,
    Dot,
    Arrow,
    TypeWord,
    Other,
}

fn delimiter(word: &[u8]) -> Symbol
    ensures { result ≡ delimiter_symbol word.now }
{
    match word {
        b"(" => Symbol::OpenRound,
        b")" => Symbol::CloseRound,
        b"[" => Symbol::OpenSquare,
        b"]" => Symbol::CloseSquare,
        b"," => Symbol::Comma,
        b"." => Symbol::Dot,
        _ => Symbol::Other,
    }
}

pub fn read_symbol(kind: TokenKind, word: &[u8]) -> Symbol
    ensures { result ≡ symbol_of kind word.now }
{
    match kind {
        TokenKind::Id | TokenKind::BackId => Symbol::Id,
        TokenKind::Delimiter => delimiter(word),
        TokenKind::Sign if word == b"=>".as_slice() || word == "\u{21D2}".as_bytes() =>
            Symbol::Arrow,
        TokenKind::Word if word == b"type".as_slice() => Symbol::TypeWord,
        _ => Symbol::Other,
    }
}
