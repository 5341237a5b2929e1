// The number at the front of a text, digit by digit: `parse` would take a plus sign and spare zeros.
ghost use Rattle.std.specs.Prelude.{◌≡◌};
ghost use Rattle.grammar.specs.Numbers.{after, digit, digits_on, integer_after, integer_front, natural_after, natural_front, negative, positive, with_digit};
ghost use Rattle.grammar.specs.Options.{held};
ghost use Rattle.std.specs.Option.{option_map};

// The value of a digit.
fn digit(byte: u8) -> Option<u32>
    ensures { result ≡ digit byte }
{
    char::from(byte).to_digit(10)
}

// The number with one more digit, if it stays a `u32`; a 0 takes none.
fn with_digit(number: u32, byte: u8) -> Option<u32>
    ensures { result ≡ with_digit number byte }
{
    if number == 0 {
        return None;
    }
    number.checked_mul(10)?.checked_add(digit(byte)?)
}

// The number that goes on with the digits at the front of `text`, and the text after it.
fn digits_on(start: u32, text: &[u8]) -> Option<(u32, &[u8])>
    ensures { held result ≡ digits_on start text.now }
{
    let mut number = start;
    let mut rest = text;
    while let [byte, after @ ..] = rest {
        if *byte == b' ' {
            return Some((number, rest));
        }
        number = with_digit(number, *byte)?;
        rest = after;
    }
    Some((number, rest))
}

// The natural number at the front of `text`, and the text after it.
fn natural_front(text: &[u8]) -> Option<(u32, &[u8])>
    ensures { held result ≡ natural_front text.now }
{
    let (first, rest) = text.split_first()?;
    digits_on(digit(*first)?, rest)
}

// The number of this size, if it is an `i32`.
fn positive(size: u32) -> Option<i32>
    ensures { result ≡ positive size }
{
    i32::try_from(size).ok()
}

// The negative number of this size, if it is an `i32`; 0 has none.
fn negative(size: u32) -> Option<i32>
    ensures { result ≡ negative size }
{
    if size == 0 {
        return None;
    }
    0i32.checked_sub_unsigned(size)
}

// The text after a mark that it begins with: `strip_prefix` in one equation, which the readers are proved by.
pub(crate) fn after<'a>(mark: &[u8], text: &'a [u8]) -> Option<&'a [u8]>
    ensures { option_map (λ x. x.now) result ≡ after mark.now text.now }
{
    text.strip_prefix(mark)
}

// The integer at the front of `text`, and the text after it.
fn integer_front(text: &[u8]) -> Option<(i32, &[u8])>
    ensures { held result ≡ integer_front text.now }
{
    match after(b"-", text) {
        Some(digits) => {
            let (size, rest) = natural_front(digits)?;
            Some((negative(size)?, rest))
        }
        None => {
            let (size, rest) = natural_front(text)?;
            Some((positive(size)?, rest))
        }
    }
}

// The natural number after one blank, and the text after it; `integer` is the same line for the other kind of number.
pub(crate) fn natural(text: &[u8]) -> Option<(u32, &[u8])>
    ensures { held result ≡ natural_after text.now }
{
    natural_front(after(b" ", text)?)
}

// The integer after one blank, and the text after it.
pub(crate) fn integer(text: &[u8]) -> Option<(i32, &[u8])>
    ensures { held result ≡ integer_after text.now }
{
    integer_front(after(b" ", text)?)
}
