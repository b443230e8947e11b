//! Cuts texts.
ghost use Rattle.std.specs.Prelude.{◌≡◌, ◌++◌};

/// Cuts a text after its first `len` bytes. If no character ends there, the first part is the whole
/// text.
#[tactic(auto, using(crate::proofs::PartsAreTheText::parts))]
pub(crate) fn split_after(text: &str, len: usize) -> (&str, &str)
    ensures { text.now ≡ result.0.now ++ result.1.now }
{
    match text.split_at_checked(len) {
        Some((front, rest)) => (front, rest),
        None => (text, ""),
    }
}

/// Cuts a text after the digits of this radix that it begins with, but after at most `most` of
/// them.
pub(crate) fn split_digits(text: &str, radix: u32, most: usize) -> (&str, &str)
    ensures { text.now ≡ result.0.now ++ result.1.now }
{
    split_after(text, digits_len(text, radix, most))
}

/// Returns how many digits of this radix a text begins with, but at most `most`.
fn digits_len(text: &str, radix: u32, most: usize) -> usize {
    let digits = if radix == 8 {
        text.bytes()
            .take_while(|b| (b'0'..=b'7').contains(b))
            .count()
    } else {
        text.bytes().take_while(|b| b.is_ascii_hexdigit()).count()
    };
    digits.min(most)
}

/// Cuts a text after the ASCII letters and hyphens that it begins with.
pub(crate) fn split_flags(text: &str) -> (&str, &str)
    ensures { text.now ≡ result.0.now ++ result.1.now }
{
    let len = text
        .bytes()
        .take_while(|b| b.is_ascii_alphabetic() || *b == b'-')
        .count();
    split_after(text, len)
}

/// Cuts a text after the decimal digits and commas that it begins with.
pub(crate) fn split_counts(text: &str) -> (&str, &str)
    ensures { text.now ≡ result.0.now ++ result.1.now }
{
    let len = text
        .bytes()
        .take_while(|b| b.is_ascii_digit() || *b == b',')
        .count();
    split_after(text, len)
}

/// Cuts a text before its first line feed.
pub(crate) fn split_line(text: &str) -> (&str, &str)
    ensures { text.now ≡ result.0.now ++ result.1.now }
{
    let len = text.bytes().take_while(|b| *b != b'\n').count();
    split_after(text, len)
}
