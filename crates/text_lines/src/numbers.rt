ghost use Rattle.std.specs.Prelude.{◌≡◌, ◌<◌, ◌≤◌, ◌^◌, IfSome};
ghost use Rattle.std.specs.Char.{is_ascii_digit};
ghost use Rattle.std.specs.List.{list_all};
ghost use Rattle.text_lines.specs.Numbers.{number_in};

/// The number that a text is, if it is one digit or more and at most so many. Leading zeros count as digits.
pub fn number_of(text: &str, most_digits: usize) -> Option<u64>
    requires { most_digits ≤ 18 }
    ensures number { result ≡ number_in most_digits text.now }
    ensures below { IfSome result (λ number. number < 10 ^ most_digits) }
{
    if text.is_empty() || text.len() > most_digits || !are_digits(text) {
        return None;
    }
    match text.parse::<u64>() {
        Ok(number) => Some(number),
        Err(_) => None,
    }
}

fn are_digits(text: &str) -> bool
    ensures { result ≡ list_all is_ascii_digit text.now }
{
    text.as_bytes().iter().all(|byte| byte.is_ascii_digit())
}
