//! Keys for columns: after a name in the line, after what the column has, and after what stands beside it.

use crate::columns::{Column, Content};
use log_samples::{Kind, Meaning, known_definition};
use std::alloc::{AllocError, Global};

/// How many characters a word may have that becomes a key.
const MOST_KEY_CHARS: usize = 40;

/// Words that say nothing about what comes after them.
const SMALL_WORDS: [&str; 30] = [
    "a", "an", "the", "of", "to", "in", "on", "at", "by", "for", "from", "with", "and", "or", "is",
    "was", "has", "are", "be", "as", "no", "not", "than", "that", "this", "it", "its", "new",
    "into", "after",
];

/// The units after a number, each with the key of such a number.
const UNITS: [(&str, &str); 21] = [
    ("ns", "duration_ns"),
    ("us", "duration_us"),
    ("µs", "duration_us"),
    ("ms", "duration_ms"),
    ("msec", "duration_ms"),
    ("msecs", "duration_ms"),
    ("milliseconds", "duration_ms"),
    ("s", "duration_s"),
    ("sec", "duration_s"),
    ("secs", "duration_s"),
    ("seconds", "duration_s"),
    ("min", "duration_min"),
    ("%", "percent"),
    ("B", "bytes"),
    ("kB", "size_kb"),
    ("KB", "size_kb"),
    ("MB", "size_mb"),
    ("GB", "size_gb"),
    ("KiB", "size_kib"),
    ("MiB", "size_mib"),
    ("GiB", "size_gib"),
];

const METHODS: [&str; 9] = [
    "GET", "HEAD", "POST", "PUT", "DELETE", "CONNECT", "OPTIONS", "TRACE", "PATCH",
];

const PROTOCOLS: [&str; 8] = ["TCP", "UDP", "ICMP", "tcp", "udp", "icmp", "IMAP", "POP3"];

/// The ends of the names of source files.
const SOURCES: [&str; 16] = [
    ".py", ".java", ".go", ".c", ".cc", ".cpp", ".h", ".rb", ".js", ".ts", ".php", ".pl", ".rs",
    ".cs", ".kt", ".scala",
];

/// The keys of names of people and of hosts.
const OPEN_KEYS: [&str; 12] = [
    "user", "username", "uname", "login", "name", "host", "hostname", "client", "server", "device",
    "node", "USER",
];

/// Parts of the names that threads have.
const THREADS: [&str; 8] = [
    "main", "thread", "Thread", "exec", "Exec", "pool", "worker", "Worker",
];

/// The last parts of names of hosts.
const DOMAINS: [&str; 8] = [
    ".com",
    ".org",
    ".net",
    ".edu",
    ".local",
    ".internal",
    ".lan",
    ".arpa",
];

/// The key that a text suggests for its column.
#[derive(Clone, Copy)]
struct Hint {
    key: &'static str,
    /// Whether one text of a column is enough. Otherwise all of its texts need the hint.
    is_enough: bool,
}

/// The key that some texts suggest.
#[derive(Clone, Copy)]
struct Suggested {
    key: Option<&'static str>,
    /// Whether a text suggests another key.
    has_other: bool,
}

impl Suggested {
    fn add(&mut self, key: &'static str) {
        match self.key {
            Some(so_far) => self.has_other = self.has_other || so_far != key,
            None => self.key = Some(key),
        }
    }

    fn key(&self) -> Option<&'static str> {
        if self.has_other { None } else { self.key }
    }
}

/// The key that the texts of a column suggest.
#[derive(Clone, Copy)]
pub(crate) struct Hints {
    all: Suggested,
    /// What is suggested by those texts of which one is enough.
    some: Suggested,
    /// Whether a text suggests nothing.
    has_none: bool,
}

impl Hints {
    pub(crate) fn new() -> Hints {
        let nothing = Suggested {
            key: None,
            has_other: false,
        };
        Hints {
            all: nothing,
            some: nothing,
            has_none: false,
        }
    }

    /// Adds a text of the column.
    pub(crate) fn add(&mut self, text: &str) {
        let Some(Hint { key, is_enough }) = hint_of(text) else {
            self.has_none = true;
            return;
        };
        self.all.add(key);
        if is_enough {
            self.some.add(key);
        }
    }

    /// Returns the key that all texts suggest, or one of which some texts are enough.
    pub(crate) fn key(&self) -> Option<&'static str> {
        let all = if self.has_none { None } else { self.all.key() };
        all.or(self.some.key())
    }
}

fn is_request(text: &str) -> bool {
    let Some(inside) = text.strip_prefix('"') else {
        return false;
    };
    match inside.split_once(' ') {
        Some((method, _)) => METHODS.iter().any(|known| *known == method),
        None => false,
    }
}

/// Returns whether a text is a dotted name, as loggers have, and not that of a host.
fn is_dotted(text: &str) -> bool {
    let is_host = DOMAINS.iter().any(|end| text.ends_with(*end));
    !is_host
        && text.contains('.')
        && text.ends_with(|c: char| c.is_ascii_alphabetic())
        && text.starts_with(|c: char| c.is_ascii_alphabetic())
        && text.chars().all(|c| c.is_ascii_alphanumeric()
            || matches!(c, '_' | '.' | '$' | '#' | '-'))
}

/// Returns the hint of a key that all texts of a column need.
fn all(key: &'static str) -> Option<Hint> {
    let is_enough = false;
    Some(Hint { key, is_enough })
}

/// Returns the hint of a key for which one text of a column is enough.
fn some(key: &'static str) -> Option<Hint> {
    let is_enough = true;
    Some(Hint { key, is_enough })
}

/// Returns whether a text is a part of the name of a thread. A dotted name that doesn't end with a number is none.
fn is_thread(text: &str) -> bool {
    let has_part = THREADS.iter().any(|part| text.contains(*part));
    has_part && (!text.contains('.') || text.ends_with(|c: char| c.is_ascii_digit()))
}

/// Returns whether a text is a number of seconds since 1970, from the year 2001 on.
fn is_unix_time(text: &str) -> bool {
    let (seconds, fraction) = text.split_once('.').unwrap_or((text, ""));
    seconds.len() == 10
        && [seconds, fraction]
            .iter()
            .all(|part: &&str| are_digits(part))
}

fn are_digits(text: &str) -> bool {
    text.chars().all(|c| c.is_ascii_digit())
}

/// Returns the key that a text suggests for its column.
fn hint_of(text: &str) -> Option<Hint> {
    if is_unix_time(text) {
        return all("timestamp");
    }
    if METHODS.iter().any(|known| *known == text) {
        return all("method");
    }
    if is_request(text) {
        return all("request");
    }
    if text.starts_with("HTTP/") || PROTOCOLS.iter().any(|known| *known == text) {
        return all("protocol");
    }
    if text.starts_with('/') {
        return all("path");
    }
    if SOURCES.iter().any(|end| text.ends_with(*end)) {
        return all("file");
    }
    if is_thread(text) {
        return some("thread");
    }
    if is_dotted(text) {
        return some("logger");
    }
    None
}

/// Returns whether a word can be a key. The last word of a sentence, which ends with a point, is none.
fn is_key(word: &str) -> bool {
    word.len() <= MOST_KEY_CHARS
        && word.starts_with(|c: char| c.is_ascii_alphabetic())
        && word.ends_with(|c: char| c.is_ascii_alphanumeric())
        && word.chars().all(|c| c.is_ascii_alphanumeric() || c == '_' || c == '-' || c == '.')
}

fn at<'c, 'l>(columns: &'c [Column<'l>], index: Option<usize>) -> Option<&'c Column<'l>> {
    columns.get(index?)
}

fn is_mark_at(columns: &[Column<'_>], index: Option<usize>, mark: char) -> bool {
    match at(columns, index) {
        Some(column) => column.is_mark(mark),
        None => false,
    }
}

fn is_blank_at(columns: &[Column<'_>], index: Option<usize>) -> bool {
    match at(columns, index) {
        Some(column) => column.is_blank(),
        None => false,
    }
}

/// Returns the word that all lines have at this index, if it can be a key.
fn word_at<'l>(columns: &[Column<'l>], index: Option<usize>) -> Option<&'l str> {
    let column = at(columns, index)?;
    if column.content != Content::Token(Kind::Word) {
        return None;
    }
    column.literal().filter(|word| is_key(word))
}

/// Returns the word before the column at `index` that names its value, as in `status=200`, `to=<bob>` or
/// `status: 200`. A word with `:` before a time or a level isn't its name.
fn name_before<'l>(columns: &[Column<'l>], index: usize) -> Option<&'l str> {
    let has_own_name = columns
        .get(index)
        .is_some_and(|column| column.has_own_name());
    let mut mark = index.checked_sub(1);
    if is_blank_at(columns, mark) {
        mark = index.checked_sub(2);
    }
    let is_open = is_mark_at(columns, mark, '<') || is_mark_at(columns, mark, '[');
    let outside = mark.and_then(|mark| mark.checked_sub(1));
    if is_open && is_mark_at(columns, outside, '=') {
        mark = outside;
    }
    let is_name = is_mark_at(columns, mark, '=')
        || (!has_own_name && is_mark_at(columns, mark, ':'));
    if !is_name {
        return None;
    }
    word_at(columns, mark?.checked_sub(1))
}

fn is_number_at(columns: &[Column<'_>], index: Option<usize>) -> bool {
    at(columns, index).is_some_and(|column| column.is_number())
}

/// Returns the literal word before the column at `index`, with a blank between them, if it says what the column has. The unit
/// of a number, as in `12ms 3` and `12 ms 3`, doesn't.
fn word_before<'l>(columns: &[Column<'l>], index: usize) -> Option<&'l str> {
    let before = index.checked_sub(3);
    if is_number_at(columns, before) || !is_blank_at(columns, index.checked_sub(1)) {
        return None;
    }
    let word = telling(word_at(columns, index.checked_sub(2)))?;
    let is_after_number = is_blank_at(columns, before)
        && is_number_at(columns, index.checked_sub(4));
    if is_after_number && unit_key(word).is_some() {
        return None;
    }
    Some(word)
}

/// Returns the literal word after the column at `index`, with a blank between them, if it says what the column has.
fn word_after<'l>(columns: &[Column<'l>], index: usize) -> Option<&'l str> {
    if !is_blank_at(columns, index.checked_add(1)) {
        return None;
    }
    telling(word_at(columns, index.checked_add(2)))
}

fn telling(word: Option<&str>) -> Option<&str> {
    word.filter(|word| word.len() > 1 && !SMALL_WORDS.iter().any(|small| small == word))
}

/// Returns the key of a number that has this unit.
fn unit_key(unit: &str) -> Option<&'static str> {
    for (known, key) in UNITS {
        if known == unit {
            return Some(key);
        }
    }
    None
}

/// Returns the key for the unit after the number at `index`, with or without a blank between them.
fn unit_after(columns: &[Column<'_>], index: usize) -> Option<&'static str> {
    let mut next = index.checked_add(1);
    if is_blank_at(columns, next) {
        next = index.checked_add(2);
    }
    let column = at(columns, next)?;
    if column.content != Content::Token(Kind::Word) {
        return None;
    }
    unit_key(column.literal()?)
}

/// Returns whether the number at `index` is in brackets after a word or a time, as the number of a process is: `sshd[2201]`.
fn is_process(columns: &[Column<'_>], index: usize) -> bool {
    let next = index.checked_add(1);
    let is_closed = is_mark_at(columns, next, ']') || is_mark_at(columns, next, ':');
    if !is_closed || !is_mark_at(columns, index.checked_sub(1), '[') {
        return false;
    }
    let mut before = index.checked_sub(2);
    if is_blank_at(columns, before) {
        before = index.checked_sub(3);
    }
    match at(columns, before) {
        Some(column) => column.is_time() || column.is_text(),
        None => false,
    }
}

/// Returns whether the column at `index` is followed by the number of a process in brackets.
fn is_program(columns: &[Column<'_>], index: usize) -> bool {
    let mut open = index.checked_add(1);
    if is_blank_at(columns, open) {
        open = index.checked_add(2);
    }
    let Some(number) = open.and_then(|open| open.checked_add(1)) else {
        return false;
    };
    let is_number = at(columns, Some(number)).is_some_and(|column| column.is_number());
    is_number && is_process(columns, number)
}

/// Returns whether the column at `index` stands between the time at the beginning and a program.
fn is_host(columns: &[Column<'_>], index: usize) -> bool {
    let is_first = columns.get(index).is_some_and(|column| column.may_change);
    let next = index.saturating_add(2);
    is_first && is_blank_at(columns, index.checked_add(1)) && is_program(columns, next)
}

/// Returns the key of the column before the one at `index`, before a mark or a blank.
fn hint_before(columns: &[Column<'_>], index: usize) -> Option<&'static str> {
    at(columns, index.checked_sub(2))?.hinted_key()
}

/// Returns the key of the text at `index` that stands beside a level, as in `channel.INFO` and `thread/INFO`.
fn beside_level(columns: &[Column<'_>], index: usize) -> Option<&'static str> {
    let is_level = |index| at(columns, index).is_some_and(|column| column.is_level());
    let next = index.checked_add(1);
    let last = index.checked_sub(1);
    if is_mark_at(columns, next, '.') && is_level(index.checked_add(2)) {
        return Some("channel");
    }
    let is_before = is_mark_at(columns, next, '/') && is_level(index.checked_add(2));
    let is_after = is_mark_at(columns, last, '/') && is_level(index.checked_sub(2));
    (is_before || is_after).then_some("thread")
}

/// Returns whether an address, which may be in brackets, and a mark come before the column at `index`.
fn is_after_address(columns: &[Column<'_>], index: usize) -> bool {
    let before = index.checked_sub(2);
    let before = if is_mark_at(columns, before, ']') {
        index.checked_sub(3)
    } else {
        before
    };
    at(columns, before).is_some_and(|column| column.is_address())
}

/// Returns the key of a number that what stands beside it gives.
fn number_key<'l>(columns: &[Column<'l>], index: usize) -> Option<&'l str> {
    let is_after_colon = is_mark_at(columns, index.checked_sub(1), ':');
    let own = columns.get(index).and_then(|column| column.hinted_key());
    let has_fraction = columns
        .get(index)
        .is_some_and(|column| !column.are_integers);
    if own.is_some() && (index <= 1 || has_fraction) {
        return own;
    }
    if is_process(columns, index) {
        return Some("pid");
    }
    if is_after_colon && hint_before(columns, index) == Some("file") {
        return Some("line");
    }
    if is_after_colon && is_after_address(columns, index) {
        return Some("port");
    }
    if matches!(hint_before(columns, index), Some("request" | "protocol"))
        && is_blank_at(columns, index.checked_sub(1))
    {
        return Some("status");
    }
    let before = word_before(columns, index);
    if let Some(unit) = unit_after(columns, index) {
        return before.or(Some(unit));
    }
    let plural = word_after(columns, index).filter(|word| word.ends_with('s'));
    plural.or(before)
}

/// Returns the key of a text that what it has, or what stands beside it, gives.
fn text_key<'l>(columns: &[Column<'l>], index: usize) -> Option<&'l str> {
    let beside = beside_level(columns, index);
    if beside.is_some() {
        return beside;
    }
    let hint = columns.get(index).and_then(|column| column.hinted_key());
    let has_level = columns.iter().any(|column: &Column<'_>| column.is_level());
    let last = index.checked_sub(1);
    let is_inside = is_mark_at(columns, last, '[') || is_mark_at(columns, last, '(');
    let hint = hint.filter(|key| match *key {
        "logger" => has_level,
        "thread" => is_inside,
        _ => true,
    });
    if hint.is_some() {
        return hint;
    }
    if is_program(columns, index) {
        return Some("program");
    }
    if is_host(columns, index) {
        return Some("host");
    }
    word_before(columns, index)
}

/// Returns whether words of this key may have other characters than letters, digits and `_` in other lines: names of people and
/// of hosts.
pub(crate) fn is_open(key: &str) -> bool {
    OPEN_KEYS.iter().any(|known| *known == key)
}

/// Returns the key of the column at `index`, or `own` if nothing in the lines names it.
pub(crate) fn key_of(
    alloc: Global,
    columns: &[Column<'_>],
    index: usize,
    own: &str,
) -> Result<String, AllocError> {
    match named_key(columns, index) {
        Some(key) => String::from_str(alloc, key),
        None => String::from_str(alloc, own),
    }
}

/// Returns the key of the column at `index` that the log or something in its lines gives.
fn named_key<'l>(columns: &[Column<'l>], index: usize) -> Option<&'l str> {
    let column = columns.get(index);
    let name = column.and_then(|column| column.name);
    let name = name.or(name_before(columns, index));
    if name.is_some() {
        return name;
    }
    match column.map(|column| column.content) {
        Some(Content::Token(Kind::Known(known))) => match known_definition(known).meaning {
            Meaning::Number => number_key(columns, index),
            Meaning::Quoted => text_key(columns, index),
            Meaning::Time if is_time_of_date(columns, index) => Some("time"),
            _ => None,
        },
        _ => text_key(columns, index),
    }
}

/// Returns whether the time at `index` comes after a date, and a mark or a blank.
fn is_time_of_date(columns: &[Column<'_>], index: usize) -> bool {
    at(columns, index.checked_sub(2)).is_some_and(|column| column.is_date())
}
