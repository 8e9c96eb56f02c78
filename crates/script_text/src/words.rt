//! The words that a line's order begins with.

ghost use Rattle.std.specs.Prelude.{◌≡◌};
ghost use Rattle.std.specs.Str.{bytes_eq};
ghost use Rattle.script_text.specs.Reading as spec;

/// What a line asks for.
#[derive(Clone, Copy, Debug, PartialEq, Eq)]
pub enum Word {
    Reload,
    Remove,
    Type,
    Members,
    Scope,
    Link,
    Structure,
    Typed,
    Cancel,
    Close,
    Wait,
    Idle,
}

fn is_text(bytes: &[u8], text: &str) -> bool
    ensures { result ≡ bytes_eq bytes.now text.now }
{
    bytes == text.as_bytes()
}

pub fn word_of(bytes: &[u8]) -> Option<Word>
    ensures { result ≡ spec.word_of bytes.now }
{
    if is_text(bytes, "reload") {
        Some(Word::Reload)
    } else if is_text(bytes, "remove") {
        Some(Word::Remove)
    } else if is_text(bytes, "type") {
        Some(Word::Type)
    } else if is_text(bytes, "members") {
        Some(Word::Members)
    } else if is_text(bytes, "scope") {
        Some(Word::Scope)
    } else if is_text(bytes, "link") {
        Some(Word::Link)
    } else if is_text(bytes, "structure") {
        Some(Word::Structure)
    } else if is_text(bytes, "typed") {
        Some(Word::Typed)
    } else if is_text(bytes, "cancel") {
        Some(Word::Cancel)
    } else if is_text(bytes, "close") {
        Some(Word::Close)
    } else if is_text(bytes, "wait") {
        Some(Word::Wait)
    } else if is_text(bytes, "idle") {
        Some(Word::Idle)
    } else {
        None
    }
}
