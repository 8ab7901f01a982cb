//! Texts of literals.

ghost use Rattle.std.specs.Prelude.{◌≡◌, ◌+◌, ◌-◌, ◌*◌, ◌^◌, ◌<◌, IsTrue, SomeIff};
ghost use Rattle.std.specs.Char.{is_ascii_digit};
ghost use Rattle.json_errors.specs.Literals.{is_integer, is_truth};

/// The number with one more digit, where it fits.
fn with_digit(number: u128, byte: u8) -> Option<u128>
    ensures { SomeIff result (IsTrue (is_ascii_digit byte) × (number * 10 + (byte - 48) < 2 ^ 128)) (number * 10 + (byte - 48)) }
{
    if !byte.is_ascii_digit() {
        return None;
    }
    number.checked_mul(10)?.checked_add(u128::from(byte - 48))
}

/// Whether the text is an integer of 128 bits in digits alone.
pub fn is_integer(text: &[u8]) -> bool
    ensures { result ≡ is_integer text.now }
{
    if text.is_empty() {
        return false;
    }
    let mut number = 0;
    let mut rest = text;
    while let Some((byte, more)) = rest.split_first() {
        match with_digit(number, *byte) {
            Some(next) => number = next,
            None => return false,
        }
        rest = more;
    }
    true
}

/// Whether the text is that of a truth value.
pub fn is_truth(text: &str) -> bool
    ensures { result ≡ is_truth text.now }
{
    text == "true" || text == "false"
}
