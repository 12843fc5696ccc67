ghost use Rattle.std.specs.Prelude.{◌≡◌, ◌≤◌, IfSome, IsTrue};
ghost use Rattle.std.specs.List.{list_all};
ghost use Rattle.std.specs.Char.{is_ascii_digit};
ghost use Rattle.std.specs.Str.Parse.{digits_value};
ghost use Rattle.definitions.specs.Limits.{last_number};
ghost use Rattle.definitions.specs.SmallText.{decimal_of, is_decimal};

/// The number that one to nine decimal digits write, which may begin with zeros.
pub fn decimal_of(text: &[u8]) -> Option<u32>
    ensures number { result ≡ decimal_of text.now }
    ensures most { IfSome result (λ n. n ≤ last_number) }
{
    if !is_decimal(text) {
        return None;
    }
    Some(value_of(text))
}

fn is_decimal(text: &[u8]) -> bool
    ensures { result ≡ is_decimal text.now }
{
    1 <= text.len() && text.len() <= 9 && are_digits(text)
}

fn are_digits(text: &[u8]) -> bool
    ensures { result ≡ list_all is_ascii_digit text.now }
{
    text.iter().all(|b| b.is_ascii_digit())
}

fn value_of(digits: &[u8]) -> u32
    requires { IsTrue (is_decimal digits.now) }
    ensures value { result ≡ digits_value 10 digits.now }
    ensures most { result ≤ last_number }
{
    let mut value = 0;
    for b in digits {
        value = value * 10 + u32::from(*b - b'0');
    }
    value
}
