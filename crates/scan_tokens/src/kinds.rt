//! What kind of token a piece is, by its shape and its bytes (SLS 1.1, 1.3).

ghost use Rattle.std.specs.Prelude.{◌≡◌, ◌<◌, ◌∷◌, true, length, map};
ghost use Rattle.std.specs.Char.{is_ascii_digit, is_ascii_hexdigit};
ghost use Rattle.std.specs.List.{list_all};
ghost use Rattle.scan_tokens.specs.Kinds as spec;
ghost use Rattle.scan_tokens.specs.Words.{Bytes};

use crate::shapes::Shape;
use crate::tokens::TokenKind;

/// The last two are U+21D2 for `=>` and U+2190 for `<-`.
const RESERVED_SIGNS: [&[u8]; 12] = [
    b"_",
    b":",
    b"=",
    b"=>",
    b"<-",
    b"<:",
    b"<%",
    b">:",
    b"#",
    b"@",
    b"\xe2\x87\x92",
    b"\xe2\x86\x90",
];

pub fn is_among(mut words: &[&[u8]], word: &[u8]) -> bool
    ensures { result ≡ spec.is_among (map (λ w. w.now) words.entry.now) word.now }
{
    while let [first, rest @ ..] = words {
        if *first == word {
            return true;
        }
        words = rest;
    }
    false
}

/// The reserved words that begin with a byte.
#[tactic(auto, unfolding(crate::specs::Kinds::is_reserved_word, crate::specs::Words::reserved_words))]
fn words_from(first: u8) -> &'static [&'static [u8]]
    ensures { (rest : Bytes) → spec.is_among (map (λ w. w.now) result.now) (first ∷ rest) ≡ spec.is_reserved_word (first ∷ rest) }
{
    match first {
        b'a' => &[b"abstract"],
        b'c' => &[b"case", b"catch", b"class"],
        b'd' => &[b"def", b"do"],
        b'e' => &[b"else", b"extends"],
        b'f' => &[b"false", b"final", b"finally", b"for", b"forSome"],
        b'i' => &[b"if", b"implicit", b"import"],
        b'l' => &[b"lazy"],
        b'm' => &[b"macro", b"match"],
        b'n' => &[b"new", b"null"],
        b'o' => &[b"object", b"override"],
        b'p' => &[b"package", b"private", b"protected"],
        b'r' => &[b"return"],
        b's' => &[b"sealed", b"super"],
        b't' => &[b"this", b"throw", b"trait", b"true", b"try", b"type"],
        b'v' => &[b"val", b"var"],
        b'w' => &[b"while", b"with"],
        b'y' => &[b"yield"],
        _ => &[],
    }
}

/// Whether these bytes are a reserved word (SLS 1.1). Reserved signs are none.
pub fn is_reserved_word(word: &[u8]) -> bool
    ensures { result ≡ spec.is_reserved_word word.now }
{
    match word {
        [first, ..] => is_among(words_from(*first), word),
        [] => false,
    }
}

#[inline(always)]
#[tactic(auto, unfolding(crate::specs::Kinds::is_reserved_sign, crate::specs::Words::reserved_signs))]
fn is_reserved_sign(word: &[u8]) -> bool
    ensures { result ≡ spec.is_reserved_sign word.now }
{
    match word {
        [b'_' | b':' | b'=' | b'<' | b'>' | b'#' | b'@' | 0xe2, ..] => is_among(
            &RESERVED_SIGNS,
            word,
        ),
        _ => false,
    }
}

#[tactic(auto, unfolding(crate::specs::Kinds::is_reserved))]
pub fn is_reserved(word: &[u8]) -> bool
    ensures { result ≡ spec.is_reserved word.now }
{
    is_reserved_word(word) || is_reserved_sign(word)
}

#[tactic(auto, unfolding(crate::specs::Kinds::name_kind))]
fn name_kind(word: &[u8]) -> TokenKind
    ensures { result ≡ spec.name_kind word.now }
{
    if is_reserved_word(word) {
        TokenKind::Word
    } else if is_reserved_sign(word) {
        TokenKind::Sign
    } else {
        TokenKind::Id
    }
}

fn are_digits(bytes: &[u8]) -> bool
    ensures { result ≡ list_all is_ascii_digit bytes.now }
{
    bytes.iter().all(|b| b.is_ascii_digit())
}

fn are_hexdigits(bytes: &[u8]) -> bool
    ensures { result ≡ list_all is_ascii_hexdigit bytes.now }
{
    bytes.iter().all(|b| b.is_ascii_hexdigit())
}

/// `0`, or digits that do not begin with 0, or `0x` or `0X` and hexadecimal digits.
#[tactic(auto, unfolding(crate::specs::Kinds::is_whole))]
fn is_whole(number: &[u8]) -> bool
    ensures { result ≡ spec.is_whole number.now }
{
    match number {
        [b'0', b'x' | b'X', digits @ ..] => !digits.is_empty() && are_hexdigits(digits),
        [b'0', rest @ ..] => rest.is_empty(),
        _ => !number.is_empty() && are_digits(number),
    }
}

#[tactic(auto, unfolding(crate::specs::Kinds::has_suffix))]
fn has_suffix(number: &[u8]) -> bool
    ensures value { result ≡ spec.has_suffix number.now }
    ensures within { result ≡ true → 0 < length number.now }
{
    match number.last() {
        None => false,
        Some(b) => *b == b'L' || *b == b'l',
    }
}

#[tactic(auto, unfolding(crate::specs::Kinds::number_kind))]
pub fn number_kind(number: &[u8]) -> TokenKind
    ensures { result ≡ spec.number_kind number.now }
{
    if has_suffix(number) {
        if is_whole(&number[..number.len() - 1]) {
            TokenKind::Long
        } else {
            TokenKind::Error
        }
    } else if is_whole(number) {
        TokenKind::Int
    } else {
        TokenKind::Error
    }
}

/// The kind of a piece with these bytes, or nothing for white space and comments.
pub fn kind_of(shape: Shape, bytes: &[u8]) -> Option<TokenKind>
    ensures { result ≡ spec.kind_of shape bytes.now }
{
    match shape {
        Shape::Space | Shape::Comment => None,
        Shape::Plain | Shape::Operator => Some(name_kind(bytes)),
        Shape::Backquoted => Some(TokenKind::BackId),
        Shape::Number => Some(number_kind(bytes)),
        Shape::Character => Some(TokenKind::Char),
        Shape::LineString | Shape::RawString => Some(TokenKind::Str),
        Shape::Delimiter => Some(TokenKind::Delimiter),
        Shape::OpenComment
        | Shape::Apostrophe
        | Shape::OpenString
        | Shape::Interpolated
        | Shape::Illegal => Some(TokenKind::Error),
    }
}
