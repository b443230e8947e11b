//! The page of `--html` as a text.
ghost use Rattle.std.specs.Prelude.{◌≡◌, IfOk, map};
ghost use Rattle.groklog_answers.specs.{matched_in};
ghost use Rattle.groklog_views.specs.Pages.{share_count, share_counts};

use crate::key_figures::{KeyValues, Stretch, figures_of, stretches_of};
use crate::page_content::{EXPLAINED, PageContent};
use groklog_answers::{Counted, Failure, Flow, Searches};
use groklog_reports::Unit;
use marked_lines::Html;
use std::alloc::{AllocError, Global};

/// How many values of a key are shown at most.
const MOST_VALUES: usize = 10;

/// The beginning of the page. It has no scripts, and its policy lets none run and nothing be loaded.
const HEAD: &str = "<!DOCTYPE html>\n<html lang=\"en\">\n<head>\n<meta charset=\"utf-8\">\n\
    <meta http-equiv=\"Content-Security-Policy\" content=\"default-src 'none'; style-src 'unsafe-inline'\">\n\
    <meta name=\"viewport\" content=\"width=device-width, initial-scale=1\">\n";

/// The style of the page, in light and in dark colours. The classes from `c1` to `c6` are the colours of
/// keys.
const STYLE: &str = "<style>\n\
    :root{color-scheme:light dark;--back:#fff;--text:#1f2328;--weak:#59636e;--line:#d1d9e0;--bar:#b6d7f5;\
    --c1:#ffd8d3;--c2:#d2f4d3;--c3:#f8eaae;--c4:#d3e3fd;--c5:#f3d9f8;--c6:#c8f1f2}\n\
    @media (prefers-color-scheme:dark){:root{--back:#0d1117;--text:#e6edf3;--weak:#9198a1;--line:#3d444d;--bar:#234d77;\
    --c1:#6b2522;--c2:#1f5a2b;--c3:#5c4a06;--c4:#1c4480;--c5:#5b2a68;--c6:#0f5a60}}\n\
    body{margin:2rem auto;max-width:80rem;padding:0 1rem;background:var(--back);color:var(--text);\
    font:16px/1.5 system-ui,sans-serif}\n\
    h1{font-size:1.5rem;overflow-wrap:anywhere}h2{font-size:1.2rem;margin-top:2rem}\n\
    code,pre{font:14px/1.6 ui-monospace,monospace;white-space:pre-wrap;overflow-wrap:anywhere;unicode-bidi:plaintext}\n\
    pre{margin:.2rem 0 .6rem;padding:.5rem .8rem;border-left:3px solid var(--line);color:var(--weak);white-space:pre;overflow-x:auto}\n\
    table{border-collapse:collapse}td{padding:.15rem .8rem .15rem 0;vertical-align:top}\n\
    td.number{text-align:right;white-space:nowrap;font-variant-numeric:tabular-nums}td.bar{width:12rem}\n\
    td.bar div{height:1rem;margin-top:.25rem;min-width:1px;background:var(--bar);border-radius:2px}\n\
    .keys td.bar{width:6rem}.keys{display:grid;grid-template-columns:repeat(auto-fill,minmax(24rem,1fr));gap:1rem 2rem}\n\
    h3{font-size:1rem;margin:.5rem 0}h3 span{padding:.1rem .4rem}p{color:var(--weak)}\n\
    ol{padding-left:4rem;border-top:1px solid var(--line);padding-top:.5rem}li::marker{color:var(--weak);font-size:.8rem}\n\
    span{border-radius:3px}.unmatched{color:var(--weak)}\n\
    .c1{background:var(--c1)}.c2{background:var(--c2)}.c3{background:var(--c3)}\
    .c4{background:var(--c4)}.c5{background:var(--c5)}.c6{background:var(--c6)}\n\
    </style>\n</head>\n<body>\n";

/// Returns the share of `count` in `total` in tenths of a percent, rounded to the nearest.
fn tenths_of(count: u64, total: u64) -> u64 {
    if total == 0 {
        return 0;
    }
    let tenths = count.saturating_mul(1000).saturating_add(total / 2);
    (tenths / total).min(1000)
}

fn push_bar(alloc: Global, html: &mut Html, tenths: u64) -> Result<(), AllocError> {
    let width = format!(in alloc; "{}.{}", tenths / 10, tenths % 10)?;
    html.push_markup("<td class=\"bar\"><div style=\"width:")?;
    html.push_text(width.as_str())?;
    html.push_markup("%\"></div></td>")
}

/// A part of the lines or events of a page, such as those that a pattern matches: how many there are, and the
/// words for them.
#[derive(Clone, Copy)]
struct Share<'w> {
    count: u64,
    words: &'w str,
    is_pattern: bool,
}

fn pattern_shares<'o>(
    alloc: Global,
    tags: &[&'o str],
    searches: &Searches<'_>,
) -> Result<Vec<Share<'o>>, AllocError>
    ensures { IfOk result (λ shares. map share_count shares.items ≡ matched_in searches.now) }
{
    let counts = searches.matched(alloc)?;
    let mut shares = Vec::new(alloc);
    'counts: for (number, count) in counts.iter().enumerate() {
        shares.push(Share {
            count: *count,
            words: tags.get(number).copied().unwrap_or(""),
            is_pattern: true,
        })?;
    }
    Ok(shares)
}

/// `tags` has the tag of each pattern.
fn shares_of<'o>(
    alloc: Global,
    tags: &[&'o str],
    searches: &Searches<'_>,
) -> Result<Vec<Share<'o>>, AllocError>
    ensures { IfOk result (λ shares. map share_count shares.items ≡ share_counts searches.now) }
{
    let mut shares = pattern_shares(alloc, tags, searches)?;
    shares.push(Share {
        count: searches.unmatched(),
        words: Failure::NoMatch.words(),
        is_pattern: false,
    })?;
    let broken = searches.broken();
    if broken > 0 {
        shares.push(Share {
            count: broken,
            words: Failure::NotUtf8.words(),
            is_pattern: false,
        })?;
    }
    Ok(shares)
}

fn push_share(
    alloc: Global,
    html: &mut Html,
    content: &PageContent<'_>,
    share: Share<'_>,
) -> Result<(), AllocError> {
    let tenths = tenths_of(share.count, content.count);
    let percent = format!(in alloc; "{}.{}%", tenths / 10, tenths % 10)?;
    let lines = content.scope.unit.counted(alloc, share.count)?;
    let (before, after) = if share.is_pattern {
        ("</td><td><code>", "</code></td></tr>\n")
    } else {
        ("</td><td>", "</td></tr>\n")
    };
    html.push_markup("<tr><td class=\"number\">")?;
    html.push_text(percent.as_str())?;
    html.push_markup("</td>")?;
    push_bar(alloc, html, tenths)?;
    html.push_markup("<td class=\"number\">")?;
    html.push_text(lines.as_str())?;
    html.push_markup(before)?;
    html.push_text(share.words)?;
    html.push_markup(after)
}

fn push_shares(
    alloc: Global,
    html: &mut Html,
    content: &PageContent<'_>,
    shares: &[Share<'_>],
) -> Result<(), AllocError> {
    html.push_markup("<h2>Patterns</h2>\n<table>\n")?;
    for share in shares {
        push_share(alloc, html, content, *share)?;
    }
    html.push_markup("</table>\n")
}

/// Appends a row with a bar that compares a count with the greatest one.
fn push_count(
    alloc: Global,
    html: &mut Html,
    counted: Counted<'_>,
    greatest: u64,
) -> Result<(), AllocError> {
    let count = format!(in alloc; "{}", counted.count)?;
    html.push_markup("<tr>")?;
    push_bar(alloc, html, tenths_of(counted.count, greatest))?;
    html.push_markup("<td class=\"number\">")?;
    html.push_text(count.as_str())?;
    html.push_markup("</td><td><code>")?;
    html.push_text(counted.value)?;
    html.push_markup("</code></td></tr>\n")
}

fn push_paragraph(html: &mut Html, text: &str) -> Result<(), AllocError> {
    html.push_markup("<p>")?;
    html.push_text(text)?;
    html.push_markup("</p>\n")
}

/// Appends how many values aren't shown, if there are any.
fn push_rest(alloc: Global, html: &mut Html, count: usize) -> Result<(), AllocError> {
    let rest = match count.saturating_sub(MOST_VALUES) {
        0 => return Ok(()),
        1 => String::from_str(alloc, "and 1 more value")?,
        more => format!(in alloc; "and {more} more values")?,
    };
    push_paragraph(html, rest.as_str())
}

/// Appends the commonest values, of which there is one at least.
fn push_commonest(
    alloc: Global,
    html: &mut Html,
    sorted: &[Counted<'_>],
) -> Result<(), AllocError> {
    let greatest = sorted.first().map_or(0, |counted| counted.count);
    html.push_markup("<table>\n")?;
    for counted in sorted.iter().take(MOST_VALUES) {
        push_count(alloc, html, *counted, greatest)?;
    }
    html.push_markup("</table>\n")?;
    push_rest(alloc, html, sorted.len())
}

/// Appends a row for the times of a stretch. Ten minutes or seconds are called by the first of them.
fn push_stretch(
    alloc: Global,
    html: &mut Html,
    stretch: Stretch<'_>,
    greatest: u64,
) -> Result<(), AllocError> {
    let mut value = String::from_str(alloc, stretch.beginning)?;
    value.push_str(if stretch.is_of_tens { "0" } else { "" })?;
    let (value, count) = (value.as_str(), stretch.count);
    push_count(alloc, html, Counted { value, count }, greatest)
}

/// Appends the first and the last of some times, and how many there are over time.
fn push_times(alloc: Global, html: &mut Html, times: &[String]) -> Result<(), AllocError> {
    let (Some(first), Some(last)) = (times.first(), times.last()) else {
        return Ok(());
    };
    let words = format!(in alloc; "in the order of the lines, the first {first}, the last {last}")?;
    push_paragraph(html, words.as_str())?;
    let stretches = stretches_of(alloc, times)?;
    let greatest = stretches.iter().map(|stretch| stretch.count).max();
    html.push_markup("<table>\n")?;
    for stretch in &stretches {
        push_stretch(alloc, html, *stretch, greatest.unwrap_or(0))?;
    }
    html.push_markup("</table>\n")
}

/// Appends what is worth seeing of the values of a key. Times are counted over time. Of numbers the least, the
/// median, the 95th percentile and the greatest are given. The commonest values follow if a value came twice,
/// or if there are only a few values.
fn push_values(
    alloc: Global,
    html: &mut Html,
    values: &KeyValues,
    sorted: &[Counted<'_>],
) -> Result<(), AllocError> {
    if let Some(times) = &values.times {
        return push_times(alloc, html, times);
    }
    if let Some(figures) = figures_of(alloc, sorted, values.total)? {
        let (least, median, p95) = (figures.least, figures.median, figures.p95);
        let words = format!(in alloc;
            "least {least}, median {median}, 95th percentile {p95}, greatest {}",
            figures.greatest
        )?;
        push_paragraph(html, words.as_str())?;
    }
    let has_repeated = sorted.first().is_some_and(|counted| counted.count > 1);
    if has_repeated || sorted.len() <= MOST_VALUES {
        push_commonest(alloc, html, sorted)?;
    }
    Ok(())
}

/// Returns how many values there are, and how many different ones, of which there are several.
fn totals_in_words(
    alloc: Global,
    total: u64,
    sorted: &[Counted<'_>],
) -> Result<String, AllocError> {
    let different = sorted.len();
    match sorted.first() {
        Some(first) if first.count == 1 => format!(in alloc;
            "{total} values, all different, such as {}",
            first.value
        ),
        _ => format!(in alloc; "{total} values, {different} different"),
    }
}

fn push_key_name(html: &mut Html, (number, key): (usize, &str)) -> Result<(), AllocError> {
    html.push_markup("<span class=\"")?;
    html.push_class(number)?;
    html.push_markup("\">")?;
    html.push_text(key)?;
    html.push_markup("</span>")
}

/// Appends a key with what is worth seeing of its values, of which there are several.
fn push_key(
    alloc: Global,
    html: &mut Html,
    key: (usize, &str),
    values: &KeyValues,
    sorted: &[Counted<'_>],
) -> Result<(), AllocError> {
    html.push_markup("<section>\n<h3>")?;
    push_key_name(html, key)?;
    html.push_markup("</h3>\n")?;
    let totals = totals_in_words(alloc, values.total, sorted)?;
    push_paragraph(html, totals.as_str())?;
    push_values(alloc, html, values, sorted)?;
    html.push_markup("</section>\n")
}

/// Appends a key whose values are all the same to a paragraph of such keys.
fn push_constant_key(
    alloc: Global,
    html: &mut Html,
    key: (usize, &str),
    only: Counted<'_>,
    unit: Unit,
) -> Result<(), AllocError> {
    html.push_markup(if html.as_str().is_empty() {
        "<p>Keys with one value: "
    } else {
        ", "
    })?;
    push_key_name(html, key)?;
    html.push_markup(" <code>")?;
    html.push_text(only.value)?;
    html.push_markup("</code> (")?;
    html.push_text(unit.counted(alloc, only.count)?.as_str())?;
    html.push_markup(")")
}

/// Appends the keys that have no value, if there are any.
fn push_keys_without_value(
    alloc: Global,
    html: &mut Html,
    keys: &[&str],
    all_values: &[KeyValues],
) -> Result<(), AllocError> {
    let mut names = String::new(alloc);
    for (key, values) in keys.iter().zip(all_values) {
        if values.total == 0 {
            names.push_str(if names.is_empty() {
                "Keys without a value: "
            } else {
                ", "
            })?;
            names.push_str(key)?;
        }
    }
    if names.is_empty() {
        return Ok(());
    }
    push_paragraph(html, names.as_str())
}

/// Appends each key with what is worth seeing of its values.
fn push_keys(alloc: Global, html: &mut Html, content: &PageContent<'_>) -> Result<(), AllocError> {
    let keys = content.located.keys.as_slice();
    if keys.is_empty() {
        return Ok(());
    }
    let mut constant = Html::new(alloc);
    html.push_markup("<h2>Keys</h2>\n<div class=\"keys\">\n")?;
    for ((number, key), values) in keys.iter().enumerate().zip(&content.values) {
        let (key, sorted) = ((number, *key), values.counts.sorted()?);
        match sorted.as_slice() {
            [] => {}
            [only] => push_constant_key(alloc, &mut constant, key, *only, content.scope.unit)?,
            several => push_key(alloc, html, key, values, several)?,
        }
    }
    html.push_markup("</div>\n")?;
    if !constant.as_str().is_empty() {
        html.push_html(&constant)?;
        html.push_markup("</p>\n")?;
    }
    push_keys_without_value(alloc, html, keys, &content.values)
}

/// Appends the beginning of the page, with the names of its files.
fn push_head(alloc: Global, html: &mut Html, files: &[&str]) -> Result<(), AllocError> {
    let mut names = String::new(alloc);
    for (number, file) in files.iter().enumerate() {
        names.push_str(if number > 0 { ", " } else { "" })?;
        names.push_str(if *file == "-" { "standard input" } else { file })?;
    }
    if files.is_empty() {
        names.push_str("standard input")?;
    }
    html.push_markup(HEAD)?;
    html.push_markup("<title>groklog: ")?;
    html.push_text(names.as_str())?;
    html.push_markup("</title>\n")?;
    html.push_markup(STYLE)?;
    html.push_markup("<h1>")?;
    html.push_text(names.as_str())?;
    html.push_markup("</h1>\n")
}

/// Returns the sentence that says which lines or events the page has.
fn read_lines_in_words(alloc: Global, content: &PageContent<'_>) -> Result<String, AllocError> {
    let unit = content.scope.unit;
    let lines = unit.counted(alloc, content.count)?;
    match (content.flow(), content.count) {
        (Flow::Enough, 1) => format!(in alloc;
            "The first {} was read: --max N reads more.",
            unit.word(1)
        ),
        (Flow::Enough, _) => format!(in alloc; "The first {lines} were read: --max N reads more."),
        (Flow::More, 1) => format!(in alloc; "The only {} was read.", unit.word(1)),
        (Flow::More, _) => format!(in alloc; "All {lines} were read."),
    }
}

/// Appends the lines or events.
fn push_items(alloc: Global, html: &mut Html, content: &PageContent<'_>) -> Result<(), AllocError> {
    let unit = content.scope.unit;
    let words = format!(in alloc;
        "A field shows its key and its definition when the pointer is over it. Of the {} that don't match, the first {EXPLAINED} say where the pattern stops.",
        unit.word(EXPLAINED)
    )?;
    html.push_markup(match unit {
        Unit::Line => "<h2>Lines</h2>\n<p>",
        Unit::Event => "<h2>Events</h2>\n<p>",
    })?;
    html.push_text(words.as_str())?;
    html.push_markup("</p>\n<ol>\n")?;
    html.push_html(&content.items)?;
    html.push_markup("</ol>\n</body>\n</html>\n")
}

/// Returns the page about these files: which share of the lines or events each pattern matches, the
/// values of each key, and the lines or events. `tags` has the tag of each pattern, by which the page
/// calls it.
pub fn page_html(
    alloc: Global,
    files: &[&str],
    tags: &[&str],
    searches: &Searches<'_>,
    content: &PageContent<'_>,
) -> Result<Html, AllocError> {
    let shares = shares_of(alloc, tags, searches)?;
    let mut html = Html::new(alloc);
    push_head(alloc, &mut html, files)?;
    let words = read_lines_in_words(alloc, content)?;
    html.push_markup("<p>")?;
    html.push_text(words.as_str())?;
    html.push_markup("</p>\n")?;
    push_shares(alloc, &mut html, content, &shares)?;
    push_keys(alloc, &mut html, content)?;
    push_items(alloc, &mut html, content)?;
    Ok(html)
}
