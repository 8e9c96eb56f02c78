//! What a token is to the grammar of expressions.

ghost use Rattle.std.specs.Prelude.{◌≡◌, map};
ghost use Rattle.expr_tails.specs.Symbols as spec;

use scan_tokens::TokenKind;

#[derive(Clone, Copy, Debug, PartialEq, Eq)]
pub enum Symbol {
    Id,
    /// An Int or a Long.
    Number,
    /// Any other literal.
    Literal,
    Underscore,
    Colon,
    Equals,
    Arrow,
    BackArrow,
    At,
    LowerBound,
    UpperBound,
    Dot,
    Comma,
    Semicolon,
    OpenRound,
    CloseRound,
    OpenSquare,
    CloseSquare,
    OpenCurly,
    CloseCurly,
    Word(Word),
    Other,
}

/// The reserved words that expressions and statements have.
#[derive(Clone, Copy, Debug, PartialEq, Eq)]
pub enum Word {
    Abstract,
    Case,
    Catch,
    Class,
    Def,
    Do,
    Else,
    Final,
    Finally,
    For,
    If,
    Import,
    Lazy,
    Match,
    New,
    Object,
    Override,
    Private,
    Protected,
    Return,
    Sealed,
    Super,
    This,
    Throw,
    Try,
    Type,
    Val,
    Var,
    While,
    Yield,
}

const CONTROL_WORDS: [(&[u8], Word); 16] = [
    (b"case", Word::Case),
    (b"catch", Word::Catch),
    (b"do", Word::Do),
    (b"else", Word::Else),
    (b"finally", Word::Finally),
    (b"for", Word::For),
    (b"if", Word::If),
    (b"match", Word::Match),
    (b"new", Word::New),
    (b"return", Word::Return),
    (b"super", Word::Super),
    (b"this", Word::This),
    (b"throw", Word::Throw),
    (b"try", Word::Try),
    (b"while", Word::While),
    (b"yield", Word::Yield),
];

const DEFINITION_WORDS: [(&[u8], Word); 14] = [
    (b"abstract", Word::Abstract),
    (b"class", Word::Class),
    (b"def", Word::Def),
    (b"final", Word::Final),
    (b"import", Word::Import),
    (b"lazy", Word::Lazy),
    (b"object", Word::Object),
    (b"override", Word::Override),
    (b"private", Word::Private),
    (b"protected", Word::Protected),
    (b"sealed", Word::Sealed),
    (b"type", Word::Type),
    (b"val", Word::Val),
    (b"var", Word::Var),
];

fn delimiter(word: &[u8]) -> Symbol
    ensures { result ≡ spec.delimiter_symbol word.now }
{
    match word {
        b"(" => Symbol::OpenRound,
        b")" => Symbol::CloseRound,
        b"[" => Symbol::OpenSquare,
        b"]" => Symbol::CloseSquare,
        b"{" => Symbol::OpenCurly,
        b"}" => Symbol::CloseCurly,
        b"," => Symbol::Comma,
        b"." => Symbol::Dot,
        b";" => Symbol::Semicolon,
        _ => Symbol::Other,
    }
}

fn is_arrow(word: &[u8]) -> bool
    ensures { result ≡ spec.is_arrow word.now }
{
    word == b"=>".as_slice() || word == "\u{21D2}".as_bytes()
}

fn is_back_arrow(word: &[u8]) -> bool
    ensures { result ≡ spec.is_back_arrow word.now }
{
    word == b"<-".as_slice() || word == "\u{2190}".as_bytes()
}

fn sign(word: &[u8]) -> Symbol
    ensures { result ≡ spec.sign_symbol word.now }
{
    if is_arrow(word) {
        return Symbol::Arrow;
    }
    if is_back_arrow(word) {
        return Symbol::BackArrow;
    }
    match word {
        b"_" => Symbol::Underscore,
        b":" => Symbol::Colon,
        b"=" => Symbol::Equals,
        b"@" => Symbol::At,
        b">:" => Symbol::LowerBound,
        b"<:" => Symbol::UpperBound,
        _ => Symbol::Other,
    }
}

fn first_written(mut words: &[(&[u8], Word)], text: &[u8]) -> Option<Word>
    ensures { result ≡ spec.first_written (map (λ w. spec.written w.0.now w.1) words.entry.now) text.now }
{
    while let [first, rest @ ..] = words {
        if text == first.0 {
            return Some(first.1);
        }
        words = rest;
    }
    None
}

fn control_word(word: &[u8]) -> Option<Word>
    ensures { result ≡ spec.first_written spec.control_words word.now }
{
    first_written(&CONTROL_WORDS, word)
}

fn definition_word(word: &[u8]) -> Option<Word>
    ensures { result ≡ spec.first_written spec.definition_words word.now }
{
    first_written(&DEFINITION_WORDS, word)
}

fn is_literal_word(word: &[u8]) -> bool
    ensures { result ≡ spec.is_literal_word word.now }
{
    matches!(word, b"true" | b"false" | b"null")
}

fn other_word(word: &[u8]) -> Symbol
    ensures { result ≡ spec.word_or_other (spec.first_written spec.definition_words word.now) }
{
    match definition_word(word) {
        Some(word) => Symbol::Word(word),
        None => Symbol::Other,
    }
}

fn reserved(word: &[u8]) -> Symbol
    ensures { result ≡ spec.word_symbol word.now }
{
    if is_literal_word(word) {
        return Symbol::Literal;
    }
    match control_word(word) {
        Some(word) => Symbol::Word(word),
        None => other_word(word),
    }
}

#[tactic(auto, unfolding(crate::specs::Symbols::symbol_of))]
pub fn read_symbol(kind: TokenKind, word: &[u8]) -> Symbol
    ensures { result ≡ spec.symbol_of kind word.now }
{
    match kind {
        TokenKind::Id | TokenKind::BackId => Symbol::Id,
        TokenKind::Int | TokenKind::Long => Symbol::Number,
        TokenKind::Char | TokenKind::Str => Symbol::Literal,
        TokenKind::Word => reserved(word),
        TokenKind::Sign => sign(word),
        TokenKind::Delimiter => delimiter(word),
        TokenKind::Error => Symbol::Other,
    }
}

/// Whether a Prim can begin with it.
pub fn begins_prim(symbol: Symbol) -> bool
    ensures { result ≡ spec.begins_prim symbol }
{
    match symbol {
        Symbol::Id
        | Symbol::Number
        | Symbol::Literal
        | Symbol::Underscore
        | Symbol::OpenRound
        | Symbol::OpenCurly => true,
        Symbol::Word(word) => matches!(word, Word::New | Word::Super | Word::This),
        _ => false,
    }
}

/// Whether an expression can begin with it.
pub fn begins_expr(symbol: Symbol) -> bool
    ensures { result ≡ spec.begins_expr symbol }
{
    match symbol {
        Symbol::Word(word) => begins_prim(symbol)
            || matches!(
                word,
                Word::If
                    | Word::While
                    | Word::Do
                    | Word::Try
                    | Word::For
                    | Word::Throw
                    | Word::Return
            ),
        _ => begins_prim(symbol),
    }
}
