//! Whether the number of a literal fits its type (SLS 1.3.1).

ghost use Rattle.std.specs.Prelude.{◌≡◌, ◌+◌, ◌*◌, ◌^◌, ◌<◌, ◌&&◌, not};
ghost use Rattle.std.specs.Option.{ForSome};
ghost use Rattle.pc_terms.specs.Number.{value_of};
ghost use Rattle.source_grammar.specs.Units as grammar;
ghost use Rattle.tree_parser.specs.Ranges as spec;

fn without_minus(text: &[u8]) -> &[u8]
    ensures { result.now ≡ grammar.without_minus text.now }
{
    match text {
        [b'-', number @ ..] => number,
        _ => text,
    }
}

fn is_negative(text: &[u8]) -> bool
    ensures { result ≡ grammar.is_negative text.now }
{
    matches!(text, [b'-', ..])
}

fn is_number(text: &[u8]) -> bool
    ensures { result ≡ grammar.is_number_text text.now }
{
    matches!(without_minus(text), [b'0'..=b'9', ..])
}

// The mark of a Long.
fn is_mark(byte: u8) -> bool
    ensures { result ≡ grammar.is_long_mark byte }
{
    byte == b'L' || byte == b'l'
}

#[tactic(auto, using(crate::proofs::RangeLemmas::is_long_last))]
fn is_long(text: &[u8]) -> bool
    ensures { result ≡ grammar.is_long text.now }
{
    match text.split_last() {
        Some((last, _)) => is_mark(*last),
        None => false,
    }
}

#[tactic(auto, using(crate::proofs::RangeLemmas::digits_of_last))]
fn without_mark(text: &[u8]) -> &[u8]
    ensures { result.now ≡ grammar.digits_of text.now }
{
    match text.split_last() {
        Some((last, digits)) => { if is_mark(*last) { digits } else { text } }
        None => text,
    }
}

fn is_hexadecimal(number: &[u8]) -> bool
    ensures { result ≡ grammar.is_hexadecimal number.now }
{
    matches!(number, [b'0', b'x' | b'X', ..])
}

fn without_prefix(number: &[u8]) -> &[u8]
    ensures { result.now ≡ grammar.without_prefix number.now }
{
    match number {
        [_, _, digits @ ..] => digits,
        _ => number,
    }
}

fn hexadecimal_digit(digit: u8) -> u8
    ensures { result ≡ grammar.hexadecimal_digit digit }
{
    if digit.is_ascii_digit() {
        digit - b'0'
    } else if digit < b'a' {
        digit.saturating_sub(55)
    } else {
        digit - 87
    }
}

// The value with one digit more; none where it has more than 64 bits.
fn with_digit(value: u64, base: u64, digit: u8) -> Option<u64>
    ensures is { result ≡ spec.in_64_bits (base * value + digit) }
    ensures fits { ForSome result (λ now. now < 2 ^ 64) }
{
    match base.checked_mul(value) {
        Some(times) => times.checked_add(digit as u64),
        None => None,
    }
}

// The value of hexadecimal digits; none where it has more than 64 bits.
fn hexadecimal_value(digits: &[u8]) -> Option<u64>
    ensures { result ≡ spec.in_64_bits (grammar.hexadecimal_value 0 digits.now) }
{
    let mut value: u64 = 0;
    for digit in digits {
        match with_digit(value, 16, hexadecimal_digit(*digit)) {
            Some(next) => value = next,
            None => return None,
        }
    }
    Some(value)
}

// The value of decimal digits; none where it has more than 64 bits.
fn decimal_value(digits: &[u8]) -> Option<u64>
    ensures { result ≡ spec.in_64_bits (value_of 0 digits.now) }
{
    let mut value: u64 = 0;
    for digit in digits {
        match with_digit(value, 10, digit.saturating_sub(b'0')) {
            Some(next) => value = next,
            None => return None,
        }
    }
    Some(value)
}

fn fits_bits(value: Option<u64>, is_long: bool) -> bool
    ensures { result ≡ spec.fits_bits value is_long }
{
    match value {
        Some(value) => is_long || value < 1 << 32,
        None => false,
    }
}

fn fits_signed(value: Option<u64>, is_long: bool, is_negative: bool) -> bool
    ensures { result ≡ spec.fits_signed value is_long is_negative }
{
    let bound = if is_long { 1 << 63 } else { 1 << 31 };
    match value {
        Some(value) => value < bound || (is_negative && value == bound),
        None => false,
    }
}

#[tactic(auto, using(crate::proofs::RangeLemmas::fits_bits_is))]
fn hexadecimal_fits(text: &[u8]) -> bool
    ensures { result ≡ spec.hexadecimal_fits text.now }
{
    let digits = without_prefix(without_mark(without_minus(text)));
    fits_bits(hexadecimal_value(digits), is_long(text))
}

#[tactic(auto, using(crate::proofs::RangeLemmas::fits_signed_is))]
fn decimal_fits(text: &[u8]) -> bool
    ensures { result ≡ spec.decimal_fits text.now }
{
    let digits = without_mark(without_minus(text));
    fits_signed(decimal_value(digits), is_long(text), is_negative(text))
}

#[tactic(auto, using(crate::proofs::RangeLemmas::in_range_is))]
fn is_in_range(text: &[u8]) -> bool
    ensures { result ≡ grammar.is_in_range text.now }
{
    if is_hexadecimal(without_minus(text)) {
        hexadecimal_fits(text)
    } else {
        decimal_fits(text)
    }
}

/// Whether a literal with this label is a number that does not fit its type.
pub fn is_out_of_range(label: &str) -> bool
    ensures { result ≡ (grammar.is_number_text label.now && not (grammar.is_in_range label.now)) }
{
    is_number(label.as_bytes()) && !is_in_range(label.as_bytes())
}
