//! Reads decimal numbers back.
ghost use Rattle.std.specs.Prelude.{◌≡◌, ℕ, suc, ◌<◌, ◌^◌, MatchOption};
ghost use Rattle.std.specs.Bool.{Decides};
ghost use Rattle.grok.specs.Numeral.{numeral};

use itoa::Buffer;

pub(crate) fn is_numeral_from_one(text: &str) -> bool
    ensures { Decides result ((count : ℕ) × (text.now ≡ numeral (suc count))) }
{
    !text.is_empty() && !text.starts_with('0') && text.as_bytes().iter().all(|b| b.is_ascii_digit())
}

pub(crate) fn number_of_numeral(text: &str) -> Option<usize>
    ensures { MatchOption result ((number : ℕ) → number < 2 ^ 64 → text.now ≡ numeral number → ⊥)
        (λ number. text.now ≡ numeral number) }
{
    let number = text.parse::<usize>().ok()?;
    let mut buffer = Buffer::new();
    if buffer.format(number) == text {
        Some(number)
    } else {
        None
    }
}
