//! Cuts a text at a separator.

ghost use Rattle.std.specs.Prelude.{◌≡◌, ◌≤◌, ◌<◌, ◌∷◌, length, IfSome, MatchOption, Some, None};
ghost use Rattle.std.specs.Option.{option_copied};
ghost use Rattle.std.specs.List.{prefix_len, list_all};
ghost use Rattle.script_text.specs.Words as spec;
ghost use Rattle.script_text.specs.Pieces.{is_other, pieces_behind};
ghost use Rattle.script_text.specs.Reading.{exactly_one, exactly_two, is_space, unindented as spec_unindented};

fn is_other(separator: u8, byte: u8) -> bool
    ensures { result ≡ is_other separator byte }
{
    byte != separator
}

// How many bytes stand before the first separator.
fn piece_len(bytes: &[u8], separator: u8) -> usize
    ensures value { result ≡ prefix_len (is_other separator) bytes.now }
    ensures within { result ≤ length bytes.now }
{
    bytes
        .iter()
        .take_while(|b| is_other(separator, **b))
        .count()
}

/// The bytes before the first separator, and those after it where there is one.
#[tactic(auto, using(crate::proofs::PieceLemmas::cut_rules, std::proofs::lemmas::Grind::common_steps))]
pub fn cut(bytes: &[u8], separator: u8) -> (&[u8], Option<&[u8]>)
    ensures pieces { spec.split separator bytes.now ≡ result.0.now ∷ pieces_behind separator (option_copied result.1) }
    ensures shorter { IfSome result.1 (λ rest. length rest.now < length bytes.now) }
{
    let len = piece_len(bytes, separator);
    let piece = &bytes[..len];
    if len < bytes.len() {
        (piece, Some(&bytes[len + 1..]))
    } else {
        (piece, None)
    }
}

/// The one piece that is left.
#[tactic(auto, using(crate::proofs::PieceLemmas::two_pieces))]
pub fn only_piece(left: Option<&[u8]>, separator: u8) -> Option<&[u8]>
    ensures { option_copied result ≡ exactly_one (pieces_behind separator (option_copied left.entry)) }
{
    match cut(left?, separator) {
        (piece, None) => Some(piece),
        (_, Some(_)) => None,
    }
}

/// The two pieces that are left.
#[tactic(auto, using(crate::proofs::PieceLemmas::three_pieces))]
pub fn two_pieces(left: Option<&[u8]>, separator: u8) -> Option<(&[u8], &[u8])>
    ensures { MatchOption result
        (exactly_two (pieces_behind separator (option_copied left.entry)) ≡ None)
        (λ two. exactly_two (pieces_behind separator (option_copied left.entry)) ≡ Some (two.0.now, two.1.now)) }
{
    let (first, rest) = cut(left?, separator);
    let (second, rest) = cut(rest?, separator);
    match rest {
        None => Some((first, second)),
        Some(_) => None,
    }
}

fn indent_of(bytes: &[u8]) -> usize
    ensures value { result ≡ prefix_len is_space bytes.now }
    ensures within { result ≤ length bytes.now }
{
    bytes.iter().take_while(|b| **b == b' ').count()
}

/// The level of a line, and what stands after its spaces.
pub fn unindented(bytes: &[u8]) -> Option<(usize, &[u8])>
    ensures { MatchOption result
        (spec_unindented bytes.now ≡ None)
        (λ found. spec_unindented bytes.now ≡ Some (found.0, found.1.now)) }
{
    let indent = indent_of(bytes);
    let level = indent / 2;
    if 2 * level == indent {
        Some((level, &bytes[indent..]))
    } else {
        None
    }
}

pub fn is_passed(bytes: &[u8]) -> bool
    ensures { result ≡ spec.is_passed bytes.now }
{
    match bytes {
        [first, ..] => *first == b'#',
        [] => true,
    }
}
