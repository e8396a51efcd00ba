// Numbers as they are written on a command line.
ghost use Rattle.std.specs.Prelude.{◌≡◌, ◌≤◌, IfSome};
ghost use Rattle.std.specs.Char.{is_ascii_digit};
ghost use Rattle.std.specs.List.{list_all};
ghost use Rattle.command_words.specs.Words.{number_of};

// Whether there are digits alone.
fn are_digits(text: &str) -> bool
    ensures { result ≡ list_all is_ascii_digit text.now }
{
    text.bytes().all(|byte| byte.is_ascii_digit())
}

/// The value of at most 20 digits, where it is not above `most`.
pub(crate) fn number(text: &str, most: u64) -> Option<u64>
    ensures value { result ≡ number_of most text.now }
    ensures small { IfSome result (λ value. value ≤ most) }
{
    if text.len() > 20 {
        return None;
    }
    if !are_digits(text) {
        return None;
    }
    match text.parse::<u64>() {
        Ok(value) if value <= most => Some(value),
        _ => None,
    }
}
