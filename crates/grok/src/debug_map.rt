//! Maps as `Debug` shows them. The contract of std's `debug_map` doesn't state what it writes.
ghost use Rattle.std.specs.Prelude.{Some, OnOk};
ghost use Rattle.std.specs.List.Sorted.{IsStrictlySortedBy};
ghost use Rattle.std.specs.Map.{keys_of};
ghost use Rattle.std.specs.String.{string_cmp};
ghost use Rattle.std.specs.Fmt.{DisplaysOnOk, ◌++?◌};
ghost use Rattle.grok.specs.Debugs.{debug_entry, debug_braces, debug_item};

use std::collections::BTreeMap;
use std::fmt;

pub(crate) fn write_entry<V: fmt::Debug, W: fmt::Write>(
    f: &mut fmt::Formatter<W>,
    lead: &str,
    key: &str,
    value: &V,
) -> fmt::Result
    ensures { DisplaysOnOk W.write_str_gives f.old result
        (Some lead.now ++? debug_entry key.now (V.debug_output value.now)) f.new }
{
    write!(f, "{lead}{key:?}: {value:?}")
}

pub(crate) fn write_map<V: fmt::Debug, W: fmt::Write>(
    f: &mut fmt::Formatter<W>,
    map: &BTreeMap<String, V>,
) -> fmt::Result
    ensures writes { DisplaysOnOk W.write_str_gives f.old result
        (debug_braces (debug_item V.debug_output) map.now.entries) f.new }
    ensures sorted { OnOk result (IsStrictlySortedBy string_cmp (keys_of map.now.entries)) }
{
    f.write_str("{")?;
    let mut lead = "";
    'entries: for (key, value) in map {
        write_entry(f, lead, key.as_str(), value)?;
        lead = ", ";
    }
    f.write_str("}")
}
