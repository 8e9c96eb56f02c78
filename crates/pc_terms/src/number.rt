//! Numbers as they are written.

ghost use Rattle.std.specs.Prelude.{◌≡◌, true};
ghost use Rattle.std.specs.List.{list_all};
ghost use Rattle.std.specs.Char.{is_ascii_digit};
ghost use Rattle.pc_terms.specs.Number as spec;

// The value of the digits, where it fits.
#[tactic(auto, using(crate::proofs::NumberLemmas::value_of_grows))]
fn fitting_value(digits: &[u8]) -> Option<u32>
    requires { list_all is_ascii_digit digits.now ≡ true }
    ensures { result ≡ spec.fitting (spec.value_of 0 digits.now) }
{
    let mut value: u64 = 0;
    let mut rest = digits;
    while let [digit, more @ ..] = rest {
        value = 10 * value + u64::from(*digit - b'0');
        if value >= 4294967296 {
            return None;
        }
        rest = more;
    }
    Some(value as u32)
}

fn are_digits(bytes: &[u8]) -> bool
    ensures { result ≡ list_all is_ascii_digit bytes.now }
{
    bytes.iter().all(|b| b.is_ascii_digit())
}

#[tactic(auto, unfolding(crate::specs::Number::is_numeral))]
fn is_numeral(bytes: &[u8]) -> bool
    ensures value { result ≡ spec.is_numeral bytes.now }
    ensures digits { result ≡ true → list_all is_ascii_digit bytes.now ≡ true }
{
    match bytes {
        [first, rest @ ..] => are_digits(bytes) && (*first != b'0' || rest.is_empty()),
        [] => false,
    }
}

/// The number that decimal digits without a leading zero write, where it fits 32 bits.
#[tactic(auto, unfolding(crate::specs::Number::number_of))]
pub fn number_of(bytes: &[u8]) -> Option<u32>
    ensures { result ≡ spec.number_of bytes.now }
{
    if is_numeral(bytes) {
        fitting_value(bytes)
    } else {
        None
    }
}
