//! Escapes text for HTML.
ghost use Rattle.std.specs.Prelude.{◌≡◌, ◌++◌, OnOk, string_bytes, encode_utf8};
ghost use Rattle.groklog_reports.specs.Visible.{visible};
ghost use Rattle.marked_lines.specs.Html.{escaped};

use groklog_reports::visible;
use std::alloc::{AllocError, Global};

fn push_escaped_char(html: &mut String, c: char) -> Result<(), AllocError>
    ensures { OnOk result (string_bytes html.new
        ≡ string_bytes html.old ++ escaped (encode_utf8 c)) }
{
    match c {
        '&' => html.push_str("&amp;"),
        '<' => html.push_str("&lt;"),
        '>' => html.push_str("&gt;"),
        '"' => html.push_str("&quot;"),
        '\'' => html.push_str("&#39;"),
        _ => html.push(c),
    }
}

fn push_escaped_chars(html: &mut String, text: &str) -> Result<(), AllocError>
    ensures { OnOk result (string_bytes html.new ≡ string_bytes html.old ++ escaped text.now) }
{
    'chars: for c in text.chars() {
        push_escaped_char(html, c)?;
    }
    Ok(())
}

pub(crate) fn push_escaped(alloc: Global, html: &mut String, text: &str) -> Result<(), AllocError>
    ensures { OnOk result (string_bytes html.new ≡ string_bytes html.old ++ escaped (visible text.now)) }
{
    let shown = visible(alloc, text)?;
    push_escaped_chars(html, shown.as_str())
}
