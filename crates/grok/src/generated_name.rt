//! The names that the expanded text has for its groups: `_n_0`, `_n_1` and so on.
ghost use Rattle.std.specs.Prelude.{◌≡◌, ℕ, ◌+◌, ◌<◌, ◌≤◌, ◌^◌, ◌++◌, length, MatchOption};
ghost use Rattle.std.specs.String.{string_bytes, string_len, string_capacity};
ghost use Rattle.grok.specs.GeneratedNames.{generated, named_head};

use crate::numeral::number_of_numeral;
use itoa::Buffer;

/// What each name begins with. Its number follows, in decimal.
const NAME_START: &str = "_n_";

const NAMED: &str = "(?<";

const NAME_END: &str = ">";

pub(crate) const UNNAMED: &str = "(?:";

pub(crate) const CLOSE: &str = ")";

/// The number of bytes around the contents of a group with a generated name, without its number.
pub(crate) const NAMED_BYTES: usize = NAMED.len() + NAME_START.len() + NAME_END.len() + CLOSE.len();

/// The number of bytes around the contents of a group without a name.
pub(crate) const UNNAMED_BYTES: usize = UNNAMED.len() + CLOSE.len();

pub(crate) fn put(out: &mut String, text: &str)
    requires { string_len out.old + length text.now ≤ string_capacity out.old }
    ensures bytes { string_bytes out.new ≡ string_bytes out.old ++ text.now }
    ensures capacity { string_capacity out.old ≤ string_capacity out.new }
{
    match out.push_str(text) {
        Ok(()) => {}
        Err(_) => unreachable!(),
    }
}

pub(crate) fn put_head(out: &mut String, number: usize)
    requires { string_len out.old + length (named_head number) ≤ string_capacity out.old }
    ensures bytes { string_bytes out.new ≡ string_bytes out.old ++ named_head number }
    ensures capacity { string_capacity out.old ≤ string_capacity out.new }
{
    let mut buffer = Buffer::new();
    put(out, NAMED);
    put(out, NAME_START);
    put(out, buffer.format(number));
    put(out, NAME_END);
}

pub(crate) fn number_of(name: &str) -> Option<usize>
    ensures { MatchOption result ((number : ℕ) → number < 2 ^ 64 → name.now ≡ generated number → ⊥)
        (λ number. name.now ≡ generated number) }
{
    number_of_numeral(name.strip_prefix(NAME_START)?)
}
