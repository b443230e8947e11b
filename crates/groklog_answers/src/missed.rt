//! What lines or events show that no pattern matches: hints tell a user why that may be.
ghost use Rattle.std.specs.Prelude.{◌≡◌};
ghost use Rattle.groklog_answers.specs.Missed.{counted_if, has_escape, has_return, missed_with};

use memchr::memchr;

/// What lines or events showed that no pattern matches.
#[derive(Clone, Copy)]
pub struct Missed {
    /// How many of them end in a carriage return.
    pub returns: u64,
    /// How many have an escape character, with which each colour of a terminal begins.
    pub escapes: u64,
}

fn has_return(text: &str) -> bool
    ensures { result ≡ has_return text.now }
{
    text.as_bytes().ends_with(b"\r")
}

fn has_escape(text: &str) -> bool
    ensures { result ≡ has_escape text.now }
{
    memchr(0x1b, text.as_bytes()).is_some()
}

fn counted_if(is_so: bool, count: u64) -> u64
    ensures { result ≡ counted_if is_so count }
{
    if is_so {
        count.saturating_add(1)
    } else {
        count
    }
}

impl Missed {
    /// Returns what no line has shown yet.
    pub const fn none() -> Missed
        ensures returns { result.returns ≡ 0 }
        ensures escapes { result.escapes ≡ 0 }
    {
        Missed {
            returns: 0,
            escapes: 0,
        }
    }

    /// Returns what was shown, with one more line or event.
    pub fn with(self, text: &str) -> Missed
        ensures { result ≡ missed_with self text.now }
    {
        Missed {
            returns: counted_if(has_return(text), self.returns),
            escapes: counted_if(has_escape(text), self.escapes),
        }
    }
}
