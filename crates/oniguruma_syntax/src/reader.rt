//! Reads a text into its tokens.
ghost use Rattle.std.specs.Prelude.{◌≡◌, ◌++◌, [], OnOk, IfOk};
ghost use Rattle.oniguruma_syntax.specs.Spelling.{spelled, spelled_all};

use crate::cut::split_after;
use crate::flags::sets_extended;
use crate::scan::{Mode, next_token};
use crate::token::{Form, Mark, Node, Opening, Placeholder, Token};
use grok_parser::parser::{GrokComponent, grok_split};
use std::alloc::{AllocError, Global};

/// A placeholder, and the byte of the text where it begins.
#[derive(Clone, Copy)]
struct Placed<'a> {
    placeholder: Placeholder<'a>,
    start: usize,
}

/// The placeholders of a text.
#[derive(Drop)]
struct Placeholders<'a> {
    found: Vec<Placed<'a>>,
    /// The byte where a malformed placeholder begins, if there is one. It comes after all others.
    malformed: Option<usize>,
}

/// Returns whether `%%` begins at a byte of a text, and a placeholder with its second `%`. In `%%{INT}` the
/// library of grok patterns reads no placeholder, but Logstash reads a `%` and a placeholder.
fn is_doubled(text: &str, at: usize) -> bool {
    let (_, rest) = split_after(text, at);
    match rest.strip_prefix('%') {
        Some(rest) => matches!(
            grok_split(rest).next(),
            Some(GrokComponent::GrokPattern { .. })
        ),
        None => false,
    }
}

/// Appends the placeholders of a text that begins at the byte `start` of the whole, as the library of
/// grok patterns reads it. Returns the byte of the whole where one begins that the library reads in another
/// way than Logstash, or a malformed one, if there is one.
fn add_placeholders<'a>(
    found: &mut Vec<Placed<'a>>,
    start: usize,
    text: &'a str,
) -> Result<Option<usize>, AllocError> {
    let mut end = start;
    for piece in grok_split(text) {
        match piece {
            GrokComponent::RegularExpression { range, .. } => {
                if is_doubled(text, range.start) {
                    return Ok(Some(start.saturating_add(range.start).saturating_add(1)));
                }
                end = start.saturating_add(range.end);
            }
            GrokComponent::GrokPattern {
                range,
                pattern,
                name,
                alias,
                extract,
                definition,
            } => {
                let placeholder = Placeholder {
                    text: pattern,
                    name,
                    alias,
                    extract,
                    definition,
                    is_trimmed: false,
                };
                end = start.saturating_add(range.end);
                let start = start.saturating_add(range.start);
                found.push(Placed { placeholder, start })?;
            }
            GrokComponent::PatternError(_) => return Ok(Some(end)),
        }
    }
    Ok(None)
}

/// Returns the placeholder with which a text begins that has a `?` before its `}`, which Logstash
/// ignores. Returns `None` if it isn't one without the `?` either.
fn read_trimmed<'a>(alloc: Global, text: &'a str) -> Result<Option<Placeholder<'a>>, AllocError> {
    let Some(len) = text.find("?}") else {
        return Ok(None);
    };
    let (inside, _) = split_after(text, len);
    let (whole, _) = split_after(text, len.saturating_add(2));
    let trimmed = format!(in alloc; "{inside}}}")?;
    match grok_split(trimmed.as_str()).next() {
        Some(
            GrokComponent::GrokPattern {
                range,
                name,
                alias,
                extract,
                ..
            },
        ) if range.end == trimmed.len() => {
            let (_, words) = split_after(whole, 2);
            let (name, rest) = split_after(words, name.len());
            let (_, rest) = split_after(rest, 1);
            let (alias, rest) = split_after(rest, alias.len());
            let (_, rest) = split_after(rest, 1);
            Ok(Some(Placeholder {
                text: whole,
                name,
                alias,
                extract: split_after(rest, extract.len()).0,
                definition: "",
                is_trimmed: true,
            }))
        }
        _ => Ok(None),
    }
}

/// Returns the placeholder with which a text begins in Logstash, or `None` if there is none.
fn read_first<'a>(alloc: Global, text: &'a str) -> Result<Option<Placeholder<'a>>, AllocError> {
    match grok_split(text).next() {
        Some(
            GrokComponent::GrokPattern {
                pattern,
                name,
                alias,
                extract,
                definition,
                ..
            },
        ) => Ok(Some(Placeholder {
            text: pattern,
            name,
            alias,
            extract,
            definition,
            is_trimmed: false,
        })),
        _ => read_trimmed(alloc, text),
    }
}

fn find_placeholders<'a>(alloc: Global, text: &'a str) -> Result<Placeholders<'a>, AllocError> {
    let mut found = Vec::new(alloc);
    let mut start = 0usize;
    // A placeholder has more than one byte.
    for _ in 0..text.len() {
        let (_, rest) = split_after(text, start);
        let Some(malformed) = add_placeholders(&mut found, start, rest)? else {
            break;
        };
        let (_, rest) = split_after(text, malformed);
        let Some(placeholder) = read_first(alloc, rest)? else {
            let malformed = Some(malformed);
            return Ok(Placeholders { found, malformed });
        };
        start = malformed.saturating_add(placeholder.text.len());
        let placed = Placed {
            placeholder,
            start: malformed,
        };
        found.push(placed)?;
    }
    let malformed = None;
    Ok(Placeholders { found, malformed })
}

/// A text that is being read.
#[derive(Drop)]
struct Reader<'a> {
    nodes: Vec<Node<'a>>,
    /// How many bytes are read.
    at: usize,
    /// How many character classes are open.
    classes: usize,
    /// Whether the last token began a class.
    is_class_start: bool,
    /// For the whole text and each open group, whether the flag `x` is set, innermost last.
    extended: Vec<bool>,
}

impl<'a> Reader<'a> {
    fn new(alloc: Global) -> Result<Reader<'a>, AllocError>
        ensures { IfOk result (λ reader. reader.nodes.items ≡ []) }
    {
        Ok(Reader {
            nodes: Vec::new(alloc),
            at: 0,
            classes: 0,
            is_class_start: false,
            extended: Vec::from_slice(alloc, &[false])?,
        })
    }

    fn is_extended(&self) -> bool {
        self.extended.as_slice().last().copied().unwrap_or(false)
    }

    fn mode(&self) -> Mode {
        Mode {
            is_in_class: self.classes > 0,
            is_class_start: self.is_class_start,
            is_extended: self.is_extended(),
        }
    }

    /// Notes that a class begins or ends.
    fn note_mark(&mut self, mark: Mark)
        ensures { self.new.nodes ≡ self.old.nodes }
    {
        match mark {
            Mark::Open | Mark::NotOpen => {
                self.classes = self.classes.saturating_add(1);
                self.is_class_start = true;
            }
            Mark::Close => self.classes = self.classes.saturating_sub(1),
            Mark::And => {}
        }
    }

    /// Notes the flags of a group that begins, or the flags that are set for what follows in the same group.
    fn note_flags(&mut self, flags: &str, end: &str) -> Result<(), AllocError>
        ensures { self.new.nodes ≡ self.old.nodes }
    {
        let is_set = sets_extended(flags, self.is_extended());
        if end == ")" {
            self.extended.pop();
        }
        Ok(self.extended.push(is_set)?)
    }

    /// Notes how the tokens after this one are read.
    fn note(&mut self, token: Token<'a>) -> Result<(), AllocError>
        ensures { self.new.nodes ≡ self.old.nodes }
    {
        self.is_class_start = false;
        match token {
            Token::Class(mark, _) => self.note_mark(mark),
            Token::Open(_, _) | Token::Enclosed(Form::Name, _, _, _) => {
                let is_extended = self.is_extended();
                self.extended.push(is_extended)?;
            }
            Token::Flags(flags, end) => self.note_flags(flags, end)?,
            Token::Symbol(')') => {
                self.extended.pop();
            }
            _ => {}
        }
        Ok(())
    }

    #[tactic(auto, using(crate::proofs::TextsOfTokens::one_more))]
    fn add(&mut self, token: Token<'a>, len: usize) -> Result<(), AllocError>
        ensures { OnOk result (spelled_all self.new.nodes.items
            ≡ spelled_all self.old.nodes.items ++ spelled token.entry) }
    {
        let start = self.at;
        let end = start.saturating_add(len);
        let is_extended = self.is_extended();
        self.nodes.push(Node {
            token,
            start,
            end,
            is_extended,
        })?;
        self.at = end;
        self.note(token)
    }

    /// The part of the text has no placeholder.
    fn read_run(&mut self, run: &'a str) -> Result<(), AllocError>
        ensures { OnOk result (spelled_all self.new.nodes.items
            ≡ spelled_all self.old.nodes.items ++ run.now) }
    {
        let mut rest = run;
        // A token has at least one byte, so this many steps read the whole part.
        'tokens: for _ in 0..run.len() {
            let Some((token, after)) = next_token(rest, self.mode()) else {
                break;
            };
            self.add(token, rest.len().saturating_sub(after.len()))?;
            rest = after;
        }
        if rest.is_empty() {
            return Ok(());
        }
        self.add(Token::Unread(rest), rest.len())
    }

    fn read_placeholder(
        &mut self,
        placeholder: Placeholder<'a>,
        text: &'a str,
    ) -> Result<&'a str, AllocError>
        ensures { IfOk result (λ rest. spelled_all self.new.nodes.items ++ rest.now
            ≡ spelled_all self.old.nodes.items ++ text.now) }
    {
        match text.strip_prefix(placeholder.text) {
            Some(rest) => {
                self.add(Token::Placeholder(placeholder), placeholder.text.len())?;
                Ok(rest)
            }
            None => Ok(text),
        }
    }

    /// Reads the text after the last placeholder. A malformed one begins at the byte `malformed` of it, if
    /// there is one.
    fn read_rest(&mut self, text: &'a str, malformed: Option<usize>) -> Result<(), AllocError>
        ensures { OnOk result (spelled_all self.new.nodes.items
            ≡ spelled_all self.old.nodes.items ++ text.now) }
    {
        let Some(start) = malformed else {
            return self.read_run(text);
        };
        let (run, rest) = split_after(text, start);
        self.read_run(run)?;
        self.add(Token::Malformed(rest), rest.len())
    }
}

/// Reads a text into its tokens. What can't be read is a token too, so that no byte is lost.
#[tactic(auto, using(crate::proofs::TextsOfTokens::none_yet))]
pub fn read<'a>(alloc: Global, text: &'a str) -> Result<Vec<Node<'a>>, AllocError>
    ensures { IfOk result (λ nodes. spelled_all nodes.items ≡ text.now) }
{
    let Placeholders { found, malformed } = find_placeholders(alloc, text)?;
    let mut reader = Reader::new(alloc)?;
    let mut rest = text;
    'placeholders: for placed in &found {
        let (run, after) = split_after(rest, placed.start.saturating_sub(reader.at));
        reader.read_run(run)?;
        rest = reader.read_placeholder(placed.placeholder, after)?;
    }
    let malformed = malformed.map(|start| start.saturating_sub(reader.at));
    reader.read_rest(rest, malformed)?;
    Ok(reader.nodes)
}
