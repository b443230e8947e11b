//! Aligns lines by their tokens.

use crate::columns::{Column, Content};
use crate::counts::{Counted, count_line};
use log_samples::{Kind, LineToken};
use std::alloc::{AllocError, Global};

/// How many columns there are at most. What comes after them is the rest.
const MOST_COLUMNS: usize = 100;

/// The tokens of a line, and how far it is aligned.
#[derive(Drop)]
pub(crate) struct Row<'l> {
    tokens: Vec<LineToken<'l>>,
    /// How many of the tokens are in columns.
    at: usize,
    /// Whether the line has all columns so far.
    is_active: bool,
}

/// What the lines of a group have in common.
#[derive(Drop)]
pub(crate) struct Template<'l> {
    pub columns: Vec<Column<'l>>,
    /// Whether more comes after the columns.
    pub has_rest: bool,
    /// Whether what comes after the columns are pairs of names and values.
    pub has_pairs: bool,
    /// The column of blanks before the rest, if there is one.
    pub blanks: Option<Column<'l>>,
}

/// What comes next in the lines.
#[derive(Clone, Copy)]
enum Next<'l> {
    /// A token of this kind.
    Token(Kind),
    /// Blanks in some lines, and after them or without them a token of the same kind.
    OptionalBlank,
    /// Tokens of different kinds, after which most lines agree again.
    Gap,
    /// Pairs with different names, after which most lines have this name.
    Pairs(&'l str),
    /// The end of the lines.
    End,
    /// Something different in each line.
    Rest,
}

impl<'l> Row<'l> {
    pub(crate) fn new(tokens: Vec<LineToken<'l>>) -> Row<'l> {
        Row {
            tokens,
            at: 0,
            is_active: true,
        }
    }

    fn next(&self) -> Option<LineToken<'l>> {
        self.tokens.as_slice().get(self.at).copied()
    }

    /// Returns the kind of the next token that isn't blank.
    fn kind_after_blanks(&self) -> Option<Kind> {
        let next = self.next()?;
        if next.kind != Kind::Blank {
            return Some(next.kind);
        }
        let after = self.tokens.as_slice().get(self.at.saturating_add(1))?;
        Some(after.kind)
    }

    pub(crate) fn head(&self) -> Option<Kind> {
        let first = self.tokens.as_slice().first()?;
        Some(first.kind)
    }

    /// Returns a text that is the same for lines whose tokens have the same kinds in the same order.
    pub(crate) fn shape(&self, alloc: Global) -> Result<String, AllocError> {
        let mut shape = String::new(alloc);
        for token in &self.tokens {
            match token.kind {
                Kind::Known(known) => {
                    let part = format!(in alloc; "({known})")?;
                    shape.push_str(part.as_str())?;
                }
                Kind::Word => shape.push('w')?,
                Kind::Blank => shape.push(' ')?,
                Kind::Mark(c) => shape.push(c)?,
                Kind::Rest => shape.push('.')?,
            }
        }
        Ok(shape)
    }

    /// Returns the name of the pair that begins with the token at this index, at the beginning or after a blank.
    fn name_at(&self, index: usize) -> Option<&'l str> {
        let tokens = self.tokens.as_slice();
        let token = tokens.get(index)?;
        let mark = tokens.get(index.saturating_add(1))?;
        let is_first = match index.checked_sub(1) {
            Some(before) => tokens.get(before)?.kind == Kind::Blank,
            None => true,
        };
        let is_name = is_first && token.kind == Kind::Word && mark.kind == Kind::Mark('=');
        is_name.then_some(token.text)
    }

    /// Returns the index of the token at which the pair with this name begins.
    fn find_name(&self, name: &str) -> Option<usize> {
        for index in self.at..self.tokens.len() {
            if self.name_at(index) == Some(name) {
                return Some(index);
            }
        }
        None
    }

    /// Returns whether the rest of the line is nothing but pairs, with blanks between them.
    fn has_pairs(&self) -> bool {
        let tokens = self.tokens.as_slice();
        for index in self.at..self.tokens.len() {
            let is_blank = tokens
                .get(index)
                .is_some_and(|token| token.kind == Kind::Blank);
            let is_first = match index.checked_sub(1).and_then(|before| tokens.get(before)) {
                Some(before) => before.kind == Kind::Blank,
                None => true,
            };
            if is_first && !is_blank && self.name_at(index).is_none() {
                return false;
            }
        }
        true
    }

    /// Returns whether a pair comes next, after blanks.
    fn begins_pair(&self) -> bool {
        let next = self.at.saturating_add(1);
        self.name_at(self.at).is_some() || self.name_at(next).is_some()
    }

    /// Adds the pairs before the one with this name to their column, without the blank after them. Returns whether the
    /// line has the name.
    fn take_pairs(&mut self, column: &mut Column<'l>, name: &str) -> bool {
        let Some(end) = self.find_name(name) else {
            return false;
        };
        if end == self.at {
            column.add("");
        }
        self.at = end;
        true
    }

    fn next_blank(&self) -> Option<usize> {
        for index in self.at..self.tokens.len() {
            if self.tokens[index].kind == Kind::Blank {
                return Some(index);
            }
        }
        None
    }

    /// Returns the index of the token that ends a gap: the bracket `closing` that belongs to one
    /// before the gap, or else the next blank, outside of the brackets inside the gap. If these
    /// aren't closed, it is the next blank. The mark between a word and a level ends each gap.
    fn gap_end(&self, closing: Option<char>) -> Option<usize> {
        let mut depth = 0usize;
        for index in self.at..self.tokens.len() {
            let kind = self.tokens[index].kind;
            let is_end = match closing {
                Some(c) => kind == Kind::Mark(c),
                None => kind == Kind::Blank,
            };
            let is_level = matches!(kind, Kind::Mark('.' | '/'));
            if (is_end || is_level) && depth == 0 {
                return Some(index);
            }
            match kind {
                Kind::Mark('[' | '(' | '{') => depth = depth.saturating_add(1),
                Kind::Mark(']' | ')' | '}') => depth = depth.saturating_sub(1),
                _ => {}
            }
        }
        match closing {
            Some(_) => None,
            None => self.next_blank(),
        }
    }

    /// Adds the tokens up to the end of a gap to its column, and goes on after them. Returns whether
    /// the line has such an end.
    fn take_gap(&mut self, column: &mut Column<'l>, closing: Option<char>) -> bool {
        let Some(end) = self.gap_end(closing) else {
            return false;
        };
        if end <= self.at {
            column.add("");
        }
        for index in self.at..end {
            match self.tokens.as_slice().get(index) {
                Some(token) if index == self.at => column.add(token.text),
                Some(token) => column.add_token(token.text),
                None => {}
            }
        }
        self.at = end;
        true
    }
}

/// Aligns lines, column by column.
#[derive(Drop)]
struct Aligner<'l> {
    alloc: Global,
    rows: Vec<Row<'l>>,
    columns: Vec<Column<'l>>,
    /// How many more lines may be left out because they differ from the others.
    spare: usize,
    /// For each bracket in the columns that isn't closed yet, the one that closes it.
    open: Vec<char>,
}

impl<'l> Aligner<'l> {
    /// Returns how many lines have all columns so far.
    fn active(&self) -> usize {
        self.rows
            .iter()
            .filter(|row: &&Row<'_>| row.is_active)
            .count()
    }

    /// Returns how many lines that have all columns so far have an end of a gap here.
    fn with_gap_end(&self, closing: Option<char>) -> usize {
        self.rows
            .iter()
            .filter(|row: &&Row<'_>| row.is_active && row.gap_end(closing).is_some())
            .count()
    }

    /// Returns how many lines may be left out for what comes next. In brackets no line is left out because it has other
    /// words there.
    fn spare_at(&self, closing: Option<char>) -> usize {
        if closing.is_some() && self.with_gap_end(closing) == self.active() {
            0
        } else {
            self.spare
        }
    }

    /// Returns whether the lines, but for `spare` of them, agree on what comes next apart from blanks.
    fn agrees_after_blanks(&self, spare: usize) -> Result<bool, AllocError> {
        let mut counts = Vec::new(self.alloc);
        for row in &self.rows {
            if row.is_active {
                count_line(&mut counts, row.kind_after_blanks())?;
            }
        }
        let active = self.active();
        Ok(
            counts.iter().any(|count: &Counted<Option<Kind>>| {
                count.what.is_some() && active.saturating_sub(count.lines) <= spare
            }),
        )
    }

    /// Returns the first name that almost all lines have from here on, if the lines go on with pairs that have different
    /// names.
    fn common_name(&self) -> Option<&'l str> {
        let first = self.rows.iter().find(|row: &&Row<'_>| row.is_active)?;
        first.name_at(first.at)?;
        for index in first.at..first.tokens.len() {
            if let Some(name) = first.name_at(index)
                && self.active().saturating_sub(self.with_name(name)) <= self.spare
            {
                return Some(name);
            }
        }
        None
    }

    /// Returns how many lines that have all columns so far have a pair with this name.
    fn with_name(&self, name: &str) -> usize {
        self.rows
            .iter()
            .filter(|row: &&Row<'_>| row.is_active && row.find_name(name).is_some())
            .count()
    }

    /// Returns whether almost all lines go on with a pair, but not with pairs of one name.
    fn has_different_names(&self) -> Result<bool, AllocError> {
        let mut counts = Vec::new(self.alloc);
        for row in &self.rows {
            if row.is_active {
                count_line(&mut counts, row.name_at(row.at))?;
            }
        }
        let active = self.active();
        let mut others = 0usize;
        let mut is_one = false;
        for count in &counts {
            let is_most = active.saturating_sub(count.lines) <= self.spare;
            is_one = is_one || (count.what.is_some() && is_most);
            if count.what.is_none() {
                others = count.lines;
            }
        }
        Ok(!is_one && others <= self.spare)
    }

    /// Returns whether what comes next in the lines is nothing but pairs. Some lines may end here.
    fn have_pairs(&self) -> bool {
        let has_some = self
            .rows
            .iter()
            .any(|row: &Row<'_>| row.is_active && row.begins_pair());
        let has_others = self
            .rows
            .iter()
            .any(|row: &Row<'_>| row.is_active && !row.has_pairs());
        has_some && !has_others
    }

    fn next(&self) -> Result<Next<'l>, AllocError> {
        if self.has_different_names()? {
            return Ok(match self.common_name() {
                Some(name) => Next::Pairs(name),
                None => Next::Rest,
            });
        }
        let mut counts = Vec::new(self.alloc);
        for row in &self.rows {
            if row.is_active {
                count_line(&mut counts, row.next().map(|token| token.kind))?;
            }
        }
        let active = self.active();
        let closing = self.open.as_slice().last().copied();
        let spare = self.spare_at(closing);
        for count in &counts {
            if active.saturating_sub(count.lines) <= spare {
                return Ok(match count.what {
                    None => Next::End,
                    Some(Kind::Rest) => Next::Rest,
                    Some(kind) => Next::Token(kind),
                });
            }
        }
        if self.agrees_after_blanks(spare)? {
            return Ok(Next::OptionalBlank);
        }
        if active.saturating_sub(self.with_gap_end(closing)) <= self.spare {
            Ok(Next::Gap)
        } else {
            Ok(Next::Rest)
        }
    }

    /// Remembers a bracket in the columns until it is closed.
    fn note_bracket(&mut self, kind: Kind) -> Result<(), AllocError> {
        let closing = match kind {
            Kind::Mark('[') => ']',
            Kind::Mark('(') => ')',
            Kind::Mark('{') => '}',
            Kind::Mark(c) => {
                if self.open.as_slice().last().copied() == Some(c) {
                    self.open.pop();
                }
                return Ok(());
            }
            _ => return Ok(()),
        };
        Ok(self.open.push(closing)?)
    }

    /// Makes a column of the tokens of this kind. Lines whose next token is another one are left out.
    fn take(&mut self, kind: Kind) -> Result<(), AllocError> {
        let mut column = Column::new(Content::Token(kind));
        for row in self.rows.iter_mut() {
            if !row.is_active {
                continue;
            }
            match row.next() {
                Some(token) if token.kind == kind => {
                    column.add(token.text);
                    row.at = row.at.saturating_add(1);
                }
                _ => {
                    row.is_active = false;
                    self.spare = self.spare.saturating_sub(1);
                }
            }
        }
        self.note_bracket(kind)?;
        column.may_change = self.is_after_time();
        if kind == Kind::Mark('=')
            && let Some(last) = self.columns.as_mut_slice().last_mut()
        {
            last.is_name = true;
        }
        Ok(self.columns.push(column)?)
    }

    /// Makes a column of blanks that some lines don't have.
    fn take_blanks(&mut self) -> Result<(), AllocError> {
        let mut column = Column::new(Content::Token(Kind::Blank));
        for row in self.rows.iter_mut() {
            if !row.is_active {
                continue;
            }
            match row.next() {
                Some(token) if token.kind == Kind::Blank => {
                    column.add(token.text);
                    row.at = row.at.saturating_add(1);
                }
                _ => column.add(""),
            }
        }
        Ok(self.columns.push(column)?)
    }

    /// Returns whether the columns are a time and blanks, or a mark, a time and blanks.
    fn is_after_time(&self) -> bool {
        let (time, blanks) = match self.columns.as_slice() {
            [time, blanks] => (time, blanks),
            [_, time, blanks] => (time, blanks),
            _ => return false,
        };
        time.is_time() && blanks.is_blank()
    }

    fn take_gap(&mut self) -> Result<(), AllocError> {
        let closing = self.open.as_slice().last().copied();
        let mut column = Column::new(Content::Gap);
        for row in self.rows.iter_mut() {
            if row.is_active && !row.take_gap(&mut column, closing) {
                row.is_active = false;
                self.spare = self.spare.saturating_sub(1);
            }
        }
        // A word before the gap that isn't the same in all lines is part of what differs.
        let last = self.columns.as_slice().last().copied();
        if let Some(word) = last.filter(|last| last.is_open_word()) {
            column.join(word);
            self.columns.pop();
        }
        Ok(self.columns.push(column)?)
    }

    /// Makes a column of the pairs before the one with this name.
    fn take_pairs(&mut self, name: &str) -> Result<(), AllocError> {
        let mut column = Column::new(Content::Pairs);
        for row in self.rows.iter_mut() {
            if row.is_active && !row.take_pairs(&mut column, name) {
                row.is_active = false;
                self.spare = self.spare.saturating_sub(1);
            }
        }
        Ok(self.columns.push(column)?)
    }

    /// Makes columns as long as the lines agree. Returns whether the lines end after the last one.
    fn align(&mut self) -> Result<bool, AllocError> {
        for _ in 0..MOST_COLUMNS {
            match self.next()? {
                Next::Token(kind) => self.take(kind)?,
                Next::OptionalBlank => self.take_blanks()?,
                Next::Gap => self.take_gap()?,
                Next::Pairs(name) => self.take_pairs(name)?,
                Next::End => return Ok(true),
                Next::Rest => return Ok(false),
            }
        }
        Ok(matches!(self.next()?, Next::End))
    }
}

/// Returns the number of columns up to the last one that lines hardly have by chance. The value after a name and `=` belongs
/// to these.
fn firm_len(columns: &[Column<'_>]) -> usize {
    let mut len = 0;
    let mut is_value = false;
    let mut was_name = false;
    for (index, column) in columns.iter().enumerate() {
        if column.is_firm() || is_value {
            len = index.saturating_add(1);
        }
        is_value = was_name;
        was_name = column.is_name && column.literal().is_some();
    }
    len
}

fn has_gap_after(columns: &[Column<'_>], index: usize) -> bool {
    let after = columns.get(index..).unwrap_or(&[]);
    after.iter().any(|column| column.content == Content::Gap)
}

/// Aligns lines, of which `spare` may be left out. Columns of free text at the end, where lines agree
/// only by chance, belong to the rest.
pub(crate) fn align<'l>(
    alloc: Global,
    rows: Vec<Row<'l>>,
    spare: usize,
) -> Result<Template<'l>, AllocError> {
    let mut aligner = Aligner {
        alloc,
        rows,
        columns: Vec::new(alloc),
        spare,
        open: Vec::new(alloc),
    };
    let is_whole = aligner.align()?;
    let has_pairs = aligner.have_pairs();
    let Aligner { mut columns, .. } = aligner;
    let firm = firm_len(&columns);
    if is_whole && !has_gap_after(&columns, firm) {
        return Ok(Template {
            columns,
            has_rest: false,
            has_pairs: false,
            blanks: None,
        });
    }
    let blanks = match columns.as_slice().get(firm) {
        Some(column) if column.is_blank() => Some(*column),
        _ => None,
    };
    let has_pairs = has_pairs && columns.len() <= firm.saturating_add(1);
    columns.truncate(firm);
    Ok(Template {
        columns,
        has_rest: true,
        has_pairs,
        blanks,
    })
}

impl Template<'_> {
    /// Returns whether the template says much about its lines: a definition recognizes one of the
    /// columns, or the whole line is in columns.
    pub(crate) fn is_telling(&self) -> bool {
        let has_known = self
            .columns
            .iter()
            .any(|column: &Column<'_>| column.is_known());
        has_known || !self.has_rest
    }
}
