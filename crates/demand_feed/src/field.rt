ghost use Rattle.std.specs.Char.{is_ascii_digit};
ghost use Rattle.std.specs.List.{list_all, prefix_len, suffix_len};
ghost use Rattle.std.specs.Prelude.{◌≡◌, ◌≤◌, length};
ghost use Rattle.demand_feed.specs.Field.{decimal_up_to, is_blank, is_decimal, is_title, number_in, without_blanks};

/// The most digits of a number, leading zeros among them.
const MAX_DIGITS: usize = 20;

/// Whether a byte is a space or a tab.
fn is_blank(byte: u8) -> bool
    ensures { result ≡ is_blank byte }
{
    byte == b' ' || byte == b'\t'
}

/// How many blanks a text begins with.
fn leading_blanks(text: &[u8]) -> usize
    ensures count { result ≡ prefix_len is_blank text.now }
    ensures within { result ≤ length text.now }
{
    text.iter().take_while(|byte| is_blank(**byte)).count()
}

/// How many blanks a text ends with.
fn trailing_blanks(text: &[u8]) -> usize
    ensures count { result ≡ suffix_len is_blank text.now }
    ensures within { result ≤ length text.now }
{
    text.iter()
        .rev()
        .take_while(|byte| is_blank(**byte))
        .count()
}

/// A field without the spaces and tabs around it.
fn without_blanks(field: &[u8]) -> &[u8]
    ensures { result.now ≡ without_blanks field.now }
{
    let text = &field[leading_blanks(field)..];
    &text[..text.len() - trailing_blanks(text)]
}

/// Whether a text has no byte but decimal digits.
fn has_digits_alone(text: &[u8]) -> bool
    ensures { result ≡ list_all is_ascii_digit text.now }
{
    text.iter().all(|byte| byte.is_ascii_digit())
}

/// Whether a text is 1 to 20 decimal digits.
fn is_decimal(text: &[u8]) -> bool
    ensures { result ≡ is_decimal text.now }
{
    !text.is_empty() && text.len() <= MAX_DIGITS && has_digits_alone(text)
}

/// The number that a text writes in 1 to 20 decimal digits, where it is at most `most`.
fn decimal_up_to(text: &[u8], most: u64) -> Option<u64>
    ensures { result ≡ decimal_up_to most text.now }
{
    if !is_decimal(text) {
        return None;
    }
    let Ok(text) = str::from_utf8(text) else {
        return None;
    };
    match text.parse::<u64>() {
        Ok(number) if number <= most => Some(number),
        _ => None,
    }
}

/// The number of at most `most` that a field holds, if it holds one.
pub(crate) fn number_in(field: &[u8], most: u64) -> Option<u64>
    ensures { result ≡ number_in most field.now }
{
    decimal_up_to(without_blanks(field), most)
}

/// Whether a field begins with an ASCII letter, after any blanks.
pub(crate) fn is_title(field: &[u8]) -> bool
    ensures { result ≡ is_title field.now }
{
    match without_blanks(field) {
        [first, ..] => first.is_ascii_alphabetic(),
        [] => false,
    }
}
