//! Writes the definitions of a run as the text of one file.

use groklog_definitions::{read_definition, skip_blanks, without_mark};
use groklog_reports::{Report, RunFault, TextFile};
use oniguruma_syntax::{Outcome, RewriteOptions, Rewritten, rewrite};
use std::alloc::{AllocError, Global};

/// The text of a file of definitions.
#[derive(Drop)]
struct WrittenLines {
    alloc: Global,
    text: String,
    /// How definitions are rewritten that were made for Logstash, or `None` if they stay as they are.
    rewrite_options: Option<RewriteOptions>,
}

impl WrittenLines {
    fn push(&mut self, line: &str, end: &str) -> Result<(), AllocError> {
        self.text.push_str(line)?;
        self.text.push_str(end)
    }

    /// Adds a definition that can't be rewritten, and above it a comment that says why. If the text was
    /// written before, the comment is there already.
    fn push_refused(&mut self, line: &str, end: &str, why: &str) -> Result<(), AllocError> {
        let comment = format!(in self.alloc; "# --from-logstash can't rewrite this: {why}{end}")?;
        if !self.text.as_str().ends_with(comment.as_str()) {
            self.text.push_str(comment.as_str())?;
        }
        self.push(line, end)
    }

    /// Adds a definition that was rewritten, and above it a comment for each change after which lines may match
    /// in another way.
    fn push_rewritten(
        &mut self,
        name: &str,
        rewritten: &Rewritten,
        end: &str,
    ) -> Result<(), AllocError> {
        for change in &rewritten.changes {
            let comment = format!(in self.alloc; "# --from-logstash: {change}")?;
            self.push(comment.as_str(), end)?;
        }
        let new = rewritten.text.as_str();
        let line = format!(in self.alloc; "{name}={new}")?;
        self.push(line.as_str(), end)
    }

    /// Adds a line. If it is a definition, that is rewritten if need be. If it is a comment or empty, or if
    /// its definition is kept, it stays as it is.
    fn push_line(&mut self, line: &str, end: &str) -> Result<(), AllocError> {
        let (Some(rewrite_options), Some((name, text))) = (
            self.rewrite_options,
            read_definition(skip_blanks(line)),
        ) else {
            return self.push(line, end);
        };
        match rewrite(self.alloc, text, rewrite_options)? {
            Outcome::Refused(refused) => {
                let why = format!(in self.alloc; "{}", refused.reason)?;
                self.push_refused(line, end, why.as_str())
            }
            Outcome::Kept => self.push(line, end),
            Outcome::Rewritten(rewritten) => self.push_rewritten(name, &rewritten, end),
        }
    }

    fn push_file(&mut self, text: &str) -> Result<(), AllocError> {
        for line in without_mark(text).split_inclusive('\n') {
            let line = line.strip_suffix('\n').unwrap_or(line);
            match line.strip_suffix('\r') {
                Some(line) => self.push_line(line, "\r\n")?,
                None => self.push_line(line, "\n")?,
            }
        }
        Ok(())
    }

    /// Adds the definition in a word after `-D`. If it ends in a carriage return, so does the line before its
    /// own end, which is read as `\r\n`.
    fn push_word(&mut self, word: &str) -> Result<(), AllocError> {
        let end = if word.ends_with('\r') { "\r\n" } else { "\n" };
        self.push_line(word, end)
    }
}

/// Returns the fault that reports that a definition doesn't fit into a line.
fn several_lines(alloc: Global, word: &str) -> Result<RunFault, AllocError> {
    let (name, _) = read_definition(word).unwrap_or(("", ""));
    let what = format!(in alloc;
        "--write-definitions can't write {name}, whose definition has a line feed"
    )?;
    let advice = "write \\n for the line feed";
    Ok(RunFault::Pattern(Report::new(alloc, what.as_str(), advice)?))
}

/// Returns the text of a file that defines what these files and words after `-D` do, in this order. With `rewrite_options`,
/// the definitions are rewritten. Comments stand above each that can't be, and above each after whose changes lines
/// may match in another way. All other lines stay as they are.
///
/// # Errors
///
/// Returns an error if the definition in a word has a line feed, or if an allocation fails.
pub fn definition_lines(
    alloc: Global,
    files: &[TextFile],
    words: &[&str],
    rewrite_options: Option<RewriteOptions>,
) -> Result<String, RunFault> {
    let text = String::new(alloc);
    let mut lines = WrittenLines {
        alloc,
        text,
        rewrite_options,
    };
    for file in files {
        lines.push_file(file.text.as_str())?;
    }
    for word in words {
        if word.contains('\n') {
            return Err(several_lines(alloc, word)?);
        }
        lines.push_word(word)?;
    }
    Ok(lines.text)
}
