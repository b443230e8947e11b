//! Writes the tokens of a text for `regex`.
ghost use Rattle.oniguruma_syntax.specs.Changes.{NameKindsOnce};

use crate::change::{Change, ChangeKind, Changes};
use crate::characters::{char_by_number, escaped_char, set_text};
use crate::class::{class_text, is_hidden, write_number};
use crate::flags::{FlagChange, read_flags};
use crate::literals::push_literal;
use crate::looks::{WordSet, is_literal, is_one_character, keys_in, part, word_set};
use crate::names::{GROUP_NAME, is_group_name, placeholder_start};
use crate::refusal::{Reason, Stop};
use crate::structure::{Links, Structure};
use crate::token::{Form, Greed, Node, Opening, Placeholder, Token};
use std::alloc::{AllocError, Global};
use std::ops::Range;

/// What a text is, and what may be done with it.
#[derive(Clone, Copy)]
pub struct RewriteOptions {
    /// Whether the text is a whole pattern, so that nothing comes before or after it.
    pub is_whole: bool,
    /// Whether a lookaround that has no form for `regex` is dropped.
    pub is_loose: bool,
}

/// A text that was written for `regex`, and its changes in reading order. Each kind of change comes once,
/// except that of lost keys, which comes for each lookaround that has keys.
#[derive(Drop)]
pub struct Rewritten {
    pub text: String,
    pub changes: Vec<Change>,
    ghost once: { NameKindsOnce changes.items },
}

/// The rewritten inline definition of a placeholder.
#[derive(Drop)]
pub(crate) struct Inline {
    /// The index of the placeholder's token.
    pub index: usize,
    pub rewritten: Rewritten,
}

/// A group that isn't closed yet, or the whole text.
#[derive(Clone, Copy)]
struct OpenGroup {
    /// The index of the token that begins it.
    index: usize,
    /// How many groups were begun in it for flags. They end where it ends.
    flags: usize,
    /// If it became a placeholder, the byte of the written text where its inline definition begins.
    inline: Option<usize>,
}

/// The text that is read.
#[derive(Clone, Copy)]
pub(crate) struct Source<'w, 'a> {
    pub text: &'a str,
    pub nodes: &'w [Node<'a>],
    pub structure: &'w Structure,
    /// The rewritten inline definitions of its placeholders, in their order.
    pub inlines: &'w [Inline],
}

impl<'w> Source<'w, '_> {
    /// Returns the rewritten inline definition of the placeholder with this index.
    fn inline_at(self, index: usize) -> Option<&'w Rewritten> {
        let found = self
            .inlines
            .binary_search_by(|inline| inline.index.cmp(&index));
        let inline = self.inlines.get(found.ok()?)?;
        Some(&inline.rewritten)
    }
}

/// A text that is being written.
#[derive(Drop)]
struct Writer<'w, 'a> {
    alloc: Global,
    source: Source<'w, 'a>,
    rewrite_options: RewriteOptions,
    /// The indexes of the tokens without the blanks before and after all others.
    body: Range<usize>,
    /// Whether a named group can become a placeholder: no placeholder of the text has the name that
    /// such placeholders get.
    can_name: bool,
    text: String,
    changes: Changes,
    /// The groups that aren't closed yet, outermost first. The first one is the whole text.
    groups: Vec<OpenGroup>,
    /// The index of the next token.
    next: usize,
}

/// Returns whether a token begins an alternative, or takes no characters where one begins.
fn begins_alternative(node: &Node<'_>) -> bool {
    match node.token {
        Token::Open(_, _) | Token::Flags(_, _) | Token::Enclosed(Form::Name, _, _, _) => true,
        Token::Edge(_) => true,
        Token::Symbol(c) => matches!(c, '|' | '^'),
        Token::Escape(c) => matches!(c, 'b' | 'B' | 'A'),
        _ => false,
    }
}

/// Returns whether a token ends an alternative, or takes no characters where one ends.
fn ends_alternative(node: &Node<'_>) -> bool {
    match node.token {
        Token::Symbol(c) => matches!(c, ')' | '|' | '$'),
        Token::Edge(_) => true,
        Token::Escape(c) => matches!(c, 'b' | 'B' | 'z' | 'Z'),
        _ => false,
    }
}

/// Returns whether a token is part of one alternative, and has to match.
fn is_one_way(node: &Node<'_>) -> bool {
    matches!(
        node.token,
        Token::Char(_) | Token::Escape(_) | Token::Class(_, _) | Token::Posix(_, _)
    )
}

/// Returns whether a character is a sign of ASCII, and no letter, digit or `_`.
fn is_sign(c: char) -> bool {
    c.is_ascii_punctuation() && c != '_'
}

/// Appends the flags of `regex` for these letters.
fn push_flags(text: &mut String, letters: &str) -> Result<(), AllocError> {
    if letters.contains('i') {
        text.push('i')?;
    }
    if has_dot_all(letters) {
        text.push('s')?;
    }
    Ok(())
}

/// Returns whether these letters let a `.` match a line feed. In Ruby's syntax that is `m`, and in texts that
/// were rewritten before it is `s`, which Ruby's syntax doesn't have.
fn has_dot_all(letters: &str) -> bool {
    letters.contains('m') || letters.contains('s')
}

fn are_known(letters: &str) -> bool {
    letters
        .bytes()
        .all(|b| matches!(b, b'i' | b'm' | b'x' | b's'))
}

fn has_brace(text: &str) -> bool {
    text.contains('{') || text.contains('}')
}

impl<'a> Writer<'_, 'a> {
    /// Records a change of the tokens with these indexes, unless its kind was recorded before.
    fn note(&mut self, kind: ChangeKind, range: &Range<usize>) -> Result<(), AllocError> {
        if self.changes.has(kind) {
            return Ok(());
        }
        let text = self.spelled(range);
        self.changes.add(Change::new(self.alloc, kind, text)?)
    }

    fn spelled(&self, range: &Range<usize>) -> &'a str {
        let nodes = part(self.source.nodes, range);
        match (nodes.first(), nodes.last()) {
            (Some(first), Some(last)) => {
                self.source.text.get(first.start..last.end).unwrap_or("")
            }
            _ => "",
        }
    }

    /// Writes a character that stands for itself. A `%` that could begin a placeholder with what is
    /// written after it becomes a class.
    fn write_char(&mut self, index: usize, c: char) -> Result<(), AllocError> {
        if is_hidden(c) {
            return write_number(&mut self.text, c);
        }
        if c != '%' {
            return push_literal(&mut self.text, c);
        }
        let is_plain = match self.source.nodes.get(index.saturating_add(1)) {
            Some(next) => matches!(next.token, Token::Char(d) if d != '%'),
            None => true,
        };
        self.text.push_str(if is_plain { "%" } else { "[%]" })
    }

    fn write_letter(&mut self, index: usize, node: &Node<'_>, letter: char) -> Result<(), Stop> {
        match letter {
            'A'
            | 'z'
            | 'b'
            | 'B'
            | 'd'
            | 'D'
            | 'w'
            | 'W'
            | 's'
            | 'S'
            | 'n'
            | 't'
            | 'r'
            | 'f'
            | 'v'
            | 'a' => {
                self.text.push('\\')?;
                self.text.push(letter)?;
            }
            'Z' => self.text.push_str("\\z")?,
            'h' => self.text.push_str("[0-9A-Fa-f]")?,
            'H' => self.text.push_str("[^0-9A-Fa-f]")?,
            'R' => self
                .text
                .push_str("(?:\\r\\n|[\\x0A-\\x0D\\u0085\\u2028\\u2029])")?,
            '1'..='9' | 'k' => return Err(Stop::at(Reason::Backreference, node)),
            'g' => return Err(Stop::at(Reason::Call, node)),
            _ => match escaped_char(letter) {
                Some(c) => self.write_char(index, c)?,
                None => return Err(Stop::at(Reason::Escape, node)),
            },
        }
        Ok(())
    }

    fn write_one(&mut self, index: usize, node: &Node<'_>) -> Result<(), Stop> {
        if let Some(c) = char_by_number(node)? {
            return Ok(self.write_char(index, c)?);
        }
        match set_text(self.alloc, node)? {
            Some(items) => {
                self.text.push('[')?;
                self.text.push_str(items.as_str())?;
                self.text.push(']')?;
                Ok(())
            }
            None => Err(Stop::at(Reason::Unclosed, node)),
        }
    }

    fn begin_group(&mut self, index: usize, inline: Option<usize>) -> Result<(), AllocError> {
        self.groups.push(OpenGroup {
            index,
            flags: 0,
            inline,
        })?;
        Ok(())
    }

    /// Ends the groups that were begun for flags in a group.
    fn end_flags(&mut self, group: OpenGroup) -> Result<(), AllocError> {
        for _ in 0..group.flags {
            self.text.push(')')?;
        }
        Ok(())
    }

    fn end_group(&mut self) -> Result<(), Stop> {
        let Some(group) = self.groups.pop() else {
            return Ok(());
        };
        self.end_flags(group)?;
        let Some(start) = group.inline else {
            return Ok(self.text.push(')')?);
        };
        if self.can_be_inline(start) {
            return Ok(self.text.push('}')?);
        }
        match self.source.nodes.get(group.index) {
            Some(node) => Err(Stop::at(Reason::NamedGroup, node)),
            None => Ok(()),
        }
    }

    /// Returns whether the text that was written from this byte on can be an inline definition.
    fn can_be_inline(&self, start: usize) -> bool {
        match self.text.as_str().get(start..) {
            Some(inside) => !inside.is_empty() && !has_brace(inside),
            None => false,
        }
    }

    /// Begins a group with a name. If `regex` doesn't take the name, it becomes a placeholder.
    fn begin_named(&mut self, index: usize, node: &Node<'_>, name: &str) -> Result<(), Stop> {
        if is_group_name(name) {
            self.text.push_str("(?<")?;
            self.text.push_str(name)?;
            self.text.push('>')?;
            return Ok(self.begin_group(index, None)?);
        }
        if !self.can_name {
            return Err(Stop::at(Reason::NamedGroup, node));
        }
        match placeholder_start(self.alloc, name)? {
            Some(start) => {
                self.text.push_str(start.as_str())?;
                let at = self.text.len();
                Ok(self.begin_group(index, Some(at))?)
            }
            None => Err(Stop::at(Reason::NamedGroup, node)),
        }
    }

    /// Begins a group with flags, or a group for the flags that are set for what follows.
    fn write_flags(
        &mut self,
        index: usize,
        node: &Node<'_>,
        flags: &str,
        end: &str,
    ) -> Result<(), Stop> {
        let FlagChange { on, off } = read_flags(flags);
        if flags.is_empty() || !are_known(on) || !are_known(off) {
            return Err(Stop::at(Reason::UnknownFlags, node));
        }
        self.text.push_str("(?")?;
        push_flags(&mut self.text, on)?;
        if off.contains('i') || has_dot_all(off) {
            self.text.push('-')?;
            push_flags(&mut self.text, off)?;
        }
        self.text.push(':')?;
        if end == ":" {
            return Ok(self.begin_group(index, None)?);
        }
        if let Some(group) = self.groups.as_mut_slice().last_mut() {
            group.flags = group.flags.saturating_add(1);
        }
        Ok(())
    }

    /// Writes a quantifier, and the end of the group that the next quantifier repeats.
    fn write_quantifier(
        &mut self,
        index: usize,
        greed: Greed,
        spelling: &str,
    ) -> Result<(), AllocError> {
        let range = index..index.saturating_add(1);
        if greed == Greed::Possessive {
            self.text
                .push_str(spelling.strip_suffix('+').unwrap_or(spelling))?;
            if !self.is_at_end(index) {
                self.note(ChangeKind::Possessive, &range)?;
            }
        } else {
            self.text.push_str(spelling)?;
        }
        self.end_repeated(index)
    }

    /// Ends the group that the next quantifier repeats, if there is one after the quantifier with
    /// this index.
    fn end_repeated(&mut self, index: usize) -> Result<(), AllocError> {
        if self.source.structure.links_of(index).is_repeated {
            self.text.push(')')?;
        }
        Ok(())
    }

    fn write_interval(
        &mut self,
        index: usize,
        node: &Node<'_>,
        counts: &str,
        end: &str,
    ) -> Result<(), Stop> {
        self.text.push('{')?;
        match counts.split_once(',') {
            None => self.text.push_str(counts)?,
            Some((least, most)) => {
                if !count_up(least, most) {
                    return Err(Stop::at(Reason::Counts, node));
                }
                self.text
                    .push_str(if least.is_empty() { "0" } else { least })?;
                self.text.push(',')?;
                self.text.push_str(most)?;
            }
        }
        self.text.push_str(end)?;
        Ok(self.end_repeated(index)?)
    }

    /// Writes a placeholder. If it has an inline definition, that is rewritten too.
    fn write_placeholder(
        &mut self,
        index: usize,
        node: &Node<'_>,
        placeholder: Placeholder<'a>,
    ) -> Result<(), Stop> {
        if node.is_extended {
            return Err(Stop::at(Reason::PlaceholderInExtended, node));
        }
        if placeholder.is_trimmed {
            return Ok(self.write_parts(placeholder, "")?);
        }
        if placeholder.definition.is_empty() {
            return Ok(self.text.push_str(placeholder.text)?);
        }
        let Some(inline) = self.source.inline_at(index) else {
            return Ok(());
        };
        if has_brace(inline.text.as_str()) {
            return Err(Stop::at(Reason::InlineDefinition, node));
        }
        self.changes.add_all(&inline.changes)?;
        self.write_parts(placeholder, inline.text.as_str())?;
        Ok(())
    }

    /// Writes a placeholder with this inline definition in place of its own. If that is empty, it has
    /// none.
    fn write_parts(
        &mut self,
        placeholder: Placeholder<'a>,
        definition: &str,
    ) -> Result<(), AllocError> {
        self.text.push_str("%{")?;
        self.text.push_str(placeholder.name)?;
        if !placeholder.alias.is_empty() || !placeholder.extract.is_empty() {
            self.text.push(':')?;
            self.text.push_str(placeholder.alias)?;
        }
        if !placeholder.extract.is_empty() {
            self.text.push(':')?;
            self.text.push_str(placeholder.extract)?;
        }
        if !definition.is_empty() {
            self.text.push('=')?;
            self.text.push_str(definition)?;
        }
        self.text.push('}')
    }

    /// Writes a class of the characters that the tokens with these indexes don't match, which match
    /// one character.
    fn write_others(&mut self, range: &Range<usize>) -> Result<(), Stop> {
        let items = class_text(self.alloc, self.source.nodes, range.start, range.end)?;
        self.text.push_str("[^")?;
        self.text.push_str(items.as_str())?;
        self.text.push(']')?;
        Ok(())
    }

    /// Returns whether a lookaround with these tokens inside it, which begins the pattern or ends
    /// it, was written so that it takes what it looks at. Nothing else in the pattern could have
    /// taken that, so the pattern means the same.
    fn write_at_edge(&mut self, opening: Opening, inside: &Range<usize>) -> Result<bool, Stop> {
        let is_first = inside.start == self.body.start.saturating_add(1);
        let is_last = inside.end.saturating_add(1) == self.body.end;
        let is_one = is_one_character(self.source.nodes, self.source.structure, inside);
        match opening {
            Opening::Behind if is_first && is_literal(part(self.source.nodes, inside)) => {
                self.text.push_str("(?:")?;
                self.next = inside.start;
                self.begin_group(inside.start.saturating_sub(1), None)?;
            }
            Opening::NotBehind if is_first && is_one => {
                self.text.push_str("(?:\\A|")?;
                self.write_others(inside)?;
                self.text.push(')')?;
            }
            Opening::Ahead if is_last => {
                self.text.push_str("(?:")?;
                self.next = inside.start;
                self.begin_group(inside.start.saturating_sub(1), None)?;
            }
            Opening::NotAhead if is_last && is_one => {
                self.text.push_str("(?:")?;
                self.write_others(inside)?;
                self.text.push_str("|\\z)")?;
            }
            _ => return Ok(false),
        }
        Ok(true)
    }

    /// Returns whether nothing that takes characters comes before a lookbehind, or after a lookahead,
    /// in its alternative.
    fn is_at_bound(&self, opening: Opening, whole: &Range<usize>) -> bool {
        let nodes = self.source.nodes;
        if opening == Opening::NotBehind {
            let before = part(nodes, &(0..whole.start));
            return match before.iter().rev().find(|node| !node.is_blank()) {
                Some(node) => begins_alternative(node),
                None => true,
            };
        }
        let after = part(nodes, &(whole.end..nodes.len()));
        match after.iter().find(|node| !node.is_blank()) {
            Some(node) => ends_alternative(node),
            None => true,
        }
    }

    /// Returns whether a negative lookahead begins an alternative and is of a text whose first
    /// character isn't one of `\w`. Where a word begins, it holds.
    fn keeps_from_sign(&self, whole: &Range<usize>, inside: &Range<usize>) -> bool {
        let looked_at = part(self.source.nodes, inside);
        let is_text = looked_at.iter().all(is_one_way);
        self.is_at_bound(Opening::NotBehind, whole)
            && is_text
            && match looked_at.first() {
                Some(node) => matches!(node.token, Token::Char(c) if is_sign(c)),
                None => false,
            }
    }

    /// Returns whether a lookaround with these tokens inside it was written as the start or the end
    /// of a word.
    fn write_word_edge(
        &mut self,
        opening: Opening,
        whole: &Range<usize>,
        inside: &Range<usize>,
    ) -> Result<bool, Stop> {
        if opening == Opening::NotAhead && self.keeps_from_sign(whole, inside) {
            self.text.push_str("\\b{start}")?;
            self.note(ChangeKind::Start, whole)?;
            return Ok(true);
        }
        if !is_one_character(self.source.nodes, self.source.structure, inside) {
            return Ok(false);
        }
        let (edge, kind) = match opening {
            Opening::NotBehind => ("\\b{start-half}", ChangeKind::WordStart),
            Opening::NotAhead => ("\\b{end-half}", ChangeKind::WordEnd),
            _ => return Ok(false),
        };
        match word_set(part(self.source.nodes, inside)) {
            WordSet::All => {}
            WordSet::Part if self.is_at_bound(opening, whole) => self.note(kind, whole)?,
            _ => return Ok(false),
        }
        self.text.push_str(edge)?;
        Ok(true)
    }

    /// Drops a lookaround, if that is allowed.
    fn drop_look(
        &mut self,
        node: &Node<'_>,
        whole: &Range<usize>,
        is_repeated: bool,
    ) -> Result<(), Stop> {
        if !self.rewrite_options.is_loose {
            return Err(Stop::at(Reason::Lookaround, node));
        }
        if is_repeated {
            self.text.push_str("(?:)")?;
        }
        let keys = keys_in(self.alloc, part(self.source.nodes, whole))?;
        if keys.is_empty() {
            return Ok(self.note(ChangeKind::Dropped, whole)?);
        }
        let text = String::from_str(self.alloc, self.spelled(whole))?;
        let kind = ChangeKind::Lost;
        Ok(self.changes.add(Change { kind, text, keys })?)
    }

    fn write_look(&mut self, index: usize, node: &Node<'_>, opening: Opening) -> Result<(), Stop> {
        let Links { close, repeats, .. } = self.source.structure.links_of(index);
        let after = close.saturating_add(1);
        let inside = index.saturating_add(1)..close;
        let whole = index..after;
        let is_repeated = repeats > 0;
        self.next = after;
        if !is_repeated {
            let is_outside = self.groups.len() == 1 && !self.source.structure.has_alternatives;
            if self.rewrite_options.is_whole
                && is_outside
                && self.write_at_edge(opening, &inside)?
            {
                return Ok(());
            }
            if self.write_word_edge(opening, &whole, &inside)? {
                return Ok(());
            }
        }
        self.drop_look(node, &whole, is_repeated)
    }

    /// Returns whether the pattern has matched once the token with this index has: only the ends of groups
    /// follow. Nothing is tried again there, so that an atomic group or a possessive quantifier is the same as a
    /// plain one.
    fn is_at_end(&self, index: usize) -> bool {
        let rest = index.saturating_add(1)..self.source.nodes.len();
        self.rewrite_options.is_whole
            && part(self.source.nodes, &rest).iter().all(|node| node.is_blank()
                || matches!(node.token, Token::Symbol(')')))
    }

    /// Begins a group.
    fn write_opening(
        &mut self,
        index: usize,
        node: &Node<'_>,
        opening: Opening,
    ) -> Result<(), Stop> {
        match opening {
            Opening::Capture => self.text.push('(')?,
            Opening::Plain => self.text.push_str("(?:")?,
            Opening::Atomic => {
                let links = self.source.structure.links_of(index);
                if !links.is_fixed && !self.is_at_end(links.close) {
                    self.note(ChangeKind::Atomic, &(index..links.close.saturating_add(1)))?;
                }
                self.text.push_str("(?:")?;
            }
            Opening::Absent => return Err(Stop::at(Reason::Absent, node)),
            Opening::Condition => return Err(Stop::at(Reason::Condition, node)),
            Opening::Unknown => return Err(Stop::at(Reason::UnknownGroup, node)),
            _ => return self.write_look(index, node, opening),
        }
        Ok(self.begin_group(index, None)?)
    }

    fn write_enclosed(
        &mut self,
        index: usize,
        node: &Node<'_>,
        form: Form,
        inside: &str,
    ) -> Result<(), Stop> {
        match form {
            // A backslash before a bracket keeps it from ending the comment.
            Form::Comment if inside.contains('\\') => Err(Stop::at(Reason::Escape, node)),
            Form::Comment => Ok(()),
            Form::Name => self.begin_named(index, node, inside),
            Form::Property | Form::NotProperty | Form::Code => self.write_one(index, node),
        }
    }

    fn write_class(&mut self, index: usize) -> Result<(), Stop> {
        let end = self
            .source
            .structure
            .links_of(index)
            .close
            .saturating_add(1);
        let text = class_text(self.alloc, self.source.nodes, index, end)?;
        self.next = end;
        Ok(self.text.push_str(text.as_str())?)
    }

    fn write_token(&mut self, index: usize, node: &Node<'a>) -> Result<(), Stop> {
        self.next = index.saturating_add(1);
        for _ in 1..self.source.structure.links_of(index).repeats {
            self.text.push_str("(?:")?;
        }
        match node.token {
            Token::Char(c) => Ok(self.write_char(index, c)?),
            Token::Symbol(')') => self.end_group(),
            Token::Symbol(c) => Ok(self.text.push(c)?),
            Token::Blank(_) | Token::LineComment(_) => Ok(()),
            Token::Escape(letter) => self.write_letter(index, node, letter),
            Token::Edge(spelling) => Ok(self.text.push_str(spelling)?),
            Token::Code(_, _, _) => self.write_one(index, node),
            Token::Enclosed(form, _, inside, _) => self.write_enclosed(index, node, form, inside),
            Token::Open(opening, _) => self.write_opening(index, node, opening),
            Token::Flags(flags, end) => self.write_flags(index, node, flags, end),
            Token::Quantifier(greed, spelling) => {
                Ok(self.write_quantifier(index, greed, spelling)?)
            }
            Token::Interval(counts, end) => self.write_interval(index, node, counts, end),
            Token::Class(_, _) => self.write_class(index),
            Token::Placeholder(placeholder) => self.write_placeholder(index, node, placeholder),
            Token::Malformed(rest) => Ok(self.text.push_str(rest)?),
            Token::Posix(_, _) | Token::Unread(_) => Err(Stop::at(Reason::Unclosed, node)),
        }
    }
}

/// Returns whether the first of two numbers is at most the second. Either may be missing.
fn count_up(least: &str, most: &str) -> bool {
    if least.is_empty() || most.is_empty() {
        return true;
    }
    match (least.parse::<u32>(), most.parse::<u32>()) {
        (Ok(least), Ok(most)) => least <= most,
        _ => false,
    }
}

/// Returns the indexes of tokens without the blanks before and after all others.
fn without_blanks(nodes: &[Node<'_>]) -> Range<usize> {
    let before = nodes.iter().take_while(|node| node.is_blank()).count();
    let after = nodes
        .iter()
        .rev()
        .take_while(|node| node.is_blank())
        .count();
    before..nodes.len().saturating_sub(after)
}

/// Writes a text for `regex`.
///
/// # Errors
///
/// Returns an error if a part of it has no form for `regex`, or if an allocation fails.
pub(crate) fn write(
    alloc: Global,
    source: Source<'_, '_>,
    rewrite_options: RewriteOptions,
) -> Result<Rewritten, Stop> {
    let mut writer = Writer {
        alloc,
        source,
        rewrite_options,
        body: without_blanks(source.nodes),
        can_name: !source.text.contains(GROUP_NAME),
        text: String::new(alloc),
        changes: Changes::new(alloc),
        groups: Vec::new(alloc),
        next: 0,
    };
    writer.begin_group(0, None)?;
    for (index, node) in source.nodes.iter().enumerate() {
        if index >= writer.next {
            writer.write_token(index, node)?;
        }
    }
    if let Some(group) = writer.groups.pop() {
        writer.end_flags(group)?;
    }
    Ok(Rewritten {
        text: writer.text,
        changes: writer.changes.into_recorded(),
    })
}
