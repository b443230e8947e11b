//! Finds the first clash of a pattern: the first placeholder that would get the key of an earlier
//! one.
ghost use Rattle.std.specs.Prelude.{IfOk};
ghost use Rattle.std.specs.FinMap as finite;
ghost use Rattle.grok.specs.Tree.{tree as tree_of};
ghost use Rattle.grok.specs.steps.KnownParts.{AreKnown};
ghost use Rattle.grok.specs.steps.TreeClashes.{FindsFirstClash};

use crate::expand::clash_search::{FoundClash, find_clash};
use crate::expand::known_parts::KnownParts;
use crate::expand::read_rows::read_rows;
use crate::settings::Settings;
use std::alloc::AllocError;

pub(crate) fn find_first_clash<'a>(
    settings: Settings<'a>,
    parts: &KnownParts<'a>,
    pattern: &'a str,
) -> Result<Option<FoundClash<'a>>, AllocError>
    requires { AreKnown settings parts.now }
    ensures { IfOk result (FindsFirstClash settings.entry.with_alias_only
        (tree_of (finite.get settings.entry.grok.now) pattern.now)) }
{
    let mut rows = read_rows(settings, parts, pattern)?;
    find_clash(settings.grok.alloc(), &parts.rows, &mut rows)
}
