//! Writes HTML in which foreign text is escaped.
ghost use Rattle.std.specs.Prelude.{◌≡◌, [], ◌∷◌, ◌++◌, false, OnOk, map, flat_map, string_bytes};
ghost use Rattle.groklog_reports.specs.Visible.{visible};
ghost use Rattle.marked_lines.specs.Colours.{colour_digit};
ghost use Rattle.marked_lines.specs.Html.{InText, escaped, has_markup, html_text, run_html, span_begin, title_at};
ghost use Rattle.marked_lines.specs.Runs.{runs_text};

use crate::colour::colour_digit;
use crate::escaped::push_escaped;
use crate::runs::Run;
use std::alloc::{AllocError, Global};
use std::marker::Model;

/// A page of HTML that is written from its beginning to its end. Only texts of the program itself are
/// markup, and all others are escaped. After an error it is incomplete.
#[derive(Drop)]
pub struct Html {
    alloc: Global,
    text: String,
}

impl Model for Html {
    ghost use Rattle.std.specs.Prelude.{ℕ, List, string_bytes};

    ghost Value = { List ℕ };

    ghost view = { λ html. string_bytes html.text };
}

fn title_at(titles: &[String], key: usize) -> &str
    ensures { result.now ≡ title_at (map string_bytes titles.now) key }
{
    match titles.get(key) {
        Some(title) => title.as_str(),
        None => "",
    }
}

impl Html {
    /// Makes an empty page.
    pub fn new(alloc: Global) -> Html
        ensures { result ≡ [] }
    {
        Html {
            alloc,
            text: String::new(alloc),
        }
    }

    /// Returns the page as it is written so far.
    pub fn as_str(&self) -> &str
        ensures { result.now ≡ self.now }
    {
        self.text.as_str()
    }

    /// Appends markup, which is a text of the program.
    pub fn push_markup(&mut self, markup: &'static str) -> Result<(), AllocError>
        ensures { OnOk result (self.new ≡ self.old ++ markup.now) }
    {
        self.text.push_str(markup)
    }

    /// Appends a page that was written before.
    pub fn push_html(&mut self, html: &Html) -> Result<(), AllocError>
        ensures { OnOk result (self.new ≡ self.old ++ html.now) }
    {
        self.text.push_str(html.as_str())
    }

    /// Appends a foreign text, escaped for use between tags and in the value of an attribute in quotes. A
    /// reader of the page sees the text as messages show it.
    pub fn push_text(&mut self, text: &str) -> Result<(), AllocError>
        ensures escaped { OnOk result (self.new ≡ self.old ++ escaped (visible text.now)) }
        ensures text { html_text InText (escaped (visible text.now)) ≡ visible text.now }
        ensures safe { has_markup (escaped (visible text.now)) ≡ false }
    {
        push_escaped(self.alloc, &mut self.text, text)
    }

    /// Appends the class of the colour of a key, such as `c6`.
    pub fn push_class(&mut self, key: usize) -> Result<(), AllocError>
        ensures { OnOk result (self.new ≡ self.old ++ (99 ∷ colour_digit key ∷ [])) }
    {
        self.text.push('c')?;
        self.text.push(colour_digit(key))
    }

    fn begin_span(&mut self, key: usize, titles: &[String]) -> Result<(), AllocError>
        ensures { OnOk result (self.new ≡ self.old ++ span_begin (map string_bytes titles.now) key) }
    {
        self.push_markup("<span class=\"")?;
        self.push_class(key)?;
        self.push_markup("\" title=\"")?;
        self.push_text(title_at(titles, key))?;
        self.push_markup("\">")?;
        Ok(())
    }

    fn push_run(&mut self, run: &Run, titles: &[String]) -> Result<(), AllocError>
        ensures { OnOk result (self.new ≡ self.old ++ run_html (map string_bytes titles.now) run.now) }
    {
        match run.key {
            None => self.push_text(run.text.as_str()),
            Some(key) => {
                self.begin_span(key, titles)?;
                self.push_text(run.text.as_str())?;
                self.push_markup("</span>")?;
                Ok(())
            }
        }
    }

    /// Appends runs. A run with a key becomes a `span` that has the class of the key's colour, and as its
    /// title the text in `titles` at the number of the key. A reader of the page sees the text of the runs,
    /// as messages show it.
    pub fn push_runs(&mut self, runs: &[Run], titles: &[String]) -> Result<(), AllocError>
        ensures html { OnOk result (self.new
            ≡ self.old ++ flat_map (run_html (map string_bytes titles.now)) runs.now) }
        ensures text { html_text InText (flat_map (run_html (map string_bytes titles.now)) runs.now)
            ≡ visible (runs_text runs.now) }
    {
        'runs: for run in runs {
            self.push_run(run, titles)?;
        }
        Ok(())
    }
}
