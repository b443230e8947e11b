//! Reads a line as the options say: without a byte order mark and a carriage return at its ends,
//! and with U+FFFD for what isn't UTF-8.
ghost use Rattle.std.specs.Prelude.{◌≡◌, None};
ghost use Rattle.groklog_input.specs.LineForms.{without_prefix, without_suffix, trimmed, encoding_of};

/// The byte order mark, with which some programs begin a file in UTF-8.
const MARK: &str = "\u{feff}";

/// What stands before the line feed in files that were written on Windows.
const RETURN: &str = "\r";

/// How lines are read before patterns are searched for in them.
#[derive(Clone, Copy)]
pub struct LineForm {
    /// Whether one carriage return is taken off the end of each line.
    pub drops_return: bool,
    /// Whether each part of a line that isn't UTF-8 is read as U+FFFD. Otherwise such a line has no
    /// fields.
    pub is_lossy: bool,
}

/// The kind of an input, judged by the bytes that it begins with: a file that gzip, xz, zstd or bzip2
/// compressed, a text in UTF-16 with its byte order mark, or anything else.
#[derive(Clone, Copy, PartialEq, Eq)]
pub enum Encoding {
    Gzip,
    Xz,
    Zstd,
    Bzip2,
    Utf16,
    Other,
}

/// What the lines of an input show about it.
#[derive(Clone, Copy)]
pub struct Signs {
    /// The kind of the input.
    pub encoding: Encoding,
    /// The number of the first line that isn't UTF-8, counted from 1, or `None` if there is none.
    pub first_broken: Option<u64>,
}

#[tactic(auto, using(crate::proofs::LinesAreFormed::prefix_is_taken_off))]
fn without_prefix<'t>(text: &'t str, part: &str) -> &'t str
    ensures { result.now ≡ without_prefix part.now text.now }
{
    text.strip_prefix(part).unwrap_or(text)
}

#[tactic(auto, using(crate::proofs::LinesAreFormed::suffix_is_taken_off))]
fn without_suffix<'t>(text: &'t str, part: &str) -> &'t str
    ensures { result.now ≡ without_suffix part.now text.now }
{
    text.strip_suffix(part).unwrap_or(text)
}

fn bytes_without_prefix<'t>(bytes: &'t [u8], part: &[u8]) -> &'t [u8]
    ensures { result.now ≡ without_prefix part.now bytes.now }
{
    if bytes.starts_with(part) {
        &bytes[part.len()..]
    } else {
        bytes
    }
}

fn bytes_without_suffix<'t>(bytes: &'t [u8], part: &[u8]) -> &'t [u8]
    ensures { result.now ≡ without_suffix part.now bytes.now }
{
    if bytes.ends_with(part) {
        &bytes[..bytes.len() - part.len()]
    } else {
        bytes
    }
}

impl LineForm {
    /// Returns a line without what this form takes off its ends. If it is the first line of its
    /// input, that is also the byte order mark.
    #[inline(always)]
    pub fn trim(self, is_first: bool, line: &str) -> &str
        ensures { result.now ≡ trimmed self is_first line.now }
    {
        let line = if is_first {
            without_prefix(line, MARK)
        } else {
            line
        };
        if self.drops_return {
            without_suffix(line, RETURN)
        } else {
            line
        }
    }

    /// Does the same as `trim`, for a line that isn't UTF-8.
    pub fn trim_bytes(self, is_first: bool, line: &[u8]) -> &[u8]
        ensures { result.now ≡ trimmed self is_first line.now }
    {
        let line = if is_first {
            bytes_without_prefix(line, MARK.as_bytes())
        } else {
            line
        };
        if self.drops_return {
            bytes_without_suffix(line, RETURN.as_bytes())
        } else {
            line
        }
    }
}

impl Signs {
    /// Returns the signs of an input after its first line.
    pub fn of_first_line(line: &[u8]) -> Signs
        ensures encoding { result.encoding ≡ encoding_of line.now }
        ensures broken { result.first_broken ≡ None }
    {
        Signs {
            encoding: encoding_of(line),
            first_broken: None,
        }
    }
}

fn encoding_of(bytes: &[u8]) -> Encoding
    ensures { result ≡ encoding_of bytes.now }
{
    if bytes.starts_with(&[0x1f, 0x8b]) {
        Encoding::Gzip
    } else if bytes.starts_with(&[0xfd, 0x37, 0x7a, 0x58, 0x5a]) {
        Encoding::Xz
    } else if bytes.starts_with(&[0x28, 0xb5, 0x2f, 0xfd]) {
        Encoding::Zstd
    } else if bytes.starts_with(&[0x42, 0x5a, 0x68]) {
        Encoding::Bzip2
    } else if bytes.starts_with(&[0xff, 0xfe]) || bytes.starts_with(&[0xfe, 0xff]) {
        Encoding::Utf16
    } else {
        Encoding::Other
    }
}
