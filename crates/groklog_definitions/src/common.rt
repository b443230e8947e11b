//! Reads and lists the common definitions, which are built in.

use crate::definition::read_definition;
use crate::definitions::{Definition, Origin};
use common_definitions::{LineFormat, definition_groups, line_formats};
use std::alloc::{AllocError, Global};

/// Appends the common definitions to `found`.
pub fn add_common_definitions(found: &mut Vec<Definition<'_>>) -> Result<(), AllocError> {
    for group in definition_groups() {
        for line in group.split('\n') {
            // Comments and empty lines are no definitions.
            if let Some((name, text)) = read_definition(line) {
                let origin = Origin::Common;
                found.push(Definition { name, text, origin })?;
            }
        }
    }
    Ok(())
}

/// Returns the text of the common definition of this name, or `None` if there is none.
pub fn common_definition(name: &str) -> Option<&'static str> {
    definition_groups().iter().find_map(|group| group
        .split('\n')
        .find_map(|line| text_of(line, name)))
}

/// Returns the text of the definition in a line, if it is the one of this name.
fn text_of<'a>(line: &'a str, name: &str) -> Option<&'a str> {
    match read_definition(line) {
        Some((found, text)) if found == name => Some(text),
        _ => None,
    }
}

/// Appends the formats of whole lines as comments of a file of definitions, each with its example.
fn push_formats(alloc: Global, lines: &mut String) -> Result<(), AllocError> {
    lines.push_str(
        "# The formats of whole lines, each with an example; after them come all definitions.\n#\n",
    )?;
    for format in &line_formats(alloc)? {
        let LineFormat { name, example, .. } = *format;
        lines.push_str(format!(in alloc; "# {name:<21}  {example}\n")?.as_str())?;
    }
    lines.push('\n')
}

/// Returns the common definitions whose names contain `text`, in upper or lower case, as the lines
/// of a file of definitions. If `text` is empty, these are all of them, and before them come the formats of
/// whole lines as comments.
pub fn list_common_definitions(alloc: Global, text: &str) -> Result<String, AllocError> {
    let mut wanted = String::from_str(alloc, text)?;
    // The names of the common definitions have no lower-case letters.
    wanted.make_ascii_uppercase();
    let mut definitions = Vec::new(alloc);
    add_common_definitions(&mut definitions)?;
    let mut lines = String::new(alloc);
    if text.is_empty() {
        push_formats(alloc, &mut lines)?;
    }
    for definition in &definitions {
        if definition.name.contains(wanted.as_str()) {
            let Definition { name, text, .. } = *definition;
            lines.push_str(format!(in alloc; "{name}={text}\n")?.as_str())?;
        }
    }
    Ok(lines)
}
