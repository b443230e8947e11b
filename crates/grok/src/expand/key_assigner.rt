//! Assigns keys and extracts to the capturing placeholders of a tree.
ghost use Rattle.std.specs.Prelude.{◌≡◌, ℕ, ◌+◌, ◌<◌, ◌^◌, List, [], ◌∷◌, not, ◌&&◌, if◌then◌else◌, OnOk, unwrap_or, Some};
ghost use Rattle.std.specs.Option.{option_map};
ghost use Rattle.std.specs.Str.{bytes_eq};
ghost use Rattle.std.specs.String.{string_bytes};
ghost use Rattle.std.specs.BTreeMap.{get_by_text};
ghost use Rattle.grok.specs.Tree as tree;
ghost use Rattle.grok.specs.Tree.{is_absent};
ghost use Rattle.grok.specs.Items.{label_view};
ghost use Rattle.grok.specs.steps.AssignedKeys.{HasAssigned, CanAssign};

use crate::defs::items::Label;
use crate::expand::numbered::{base_key, numbered_key};
use crate::expand::placeholder_key::PlaceholderKey;
use std::alloc::{AllocError, Global};
use std::collections::BTreeMap;

/// The keys and extracts of the capturing placeholders so far.
#[derive(Drop)]
pub(crate) struct KeyAssigner {
    alloc: Global,
    /// How often each base key was used.
    uses: BTreeMap<String, usize>,
    /// The keys in reading order.
    pub keys: Vec<PlaceholderKey>,
    pub extracts: BTreeMap<String, String>,
}

fn uses_of(uses: &BTreeMap<String, usize>, base: &str) -> usize
    ensures { result ≡ unwrap_or (get_by_text uses.now base.now) 0 }
{
    uses.get(base).copied().unwrap_or(0)
}

fn count_once_more(
    alloc: Global,
    uses: &mut BTreeMap<String, usize>,
    base: &str,
    count: usize,
) -> Result<(), AllocError>
    requires counted { count ≡ unwrap_or (get_by_text uses.old base.now) 0 }
    requires fits { count + 1 < 2 ^ 64 }
    ensures { OnOk result ((key : List ℕ) → unwrap_or (get_by_text uses.new key) 0 ≡
        (if bytes_eq base.now key then 1 else 0)
        + unwrap_or (get_by_text uses.old key) 0) }
{
    uses.insert(String::from_str(alloc, base)?, count + 1)?;
    Ok(())
}

fn keep_extract(
    alloc: Global,
    extracts: &mut BTreeMap<String, String>,
    key: &str,
    extract: &str,
) -> Result<(), AllocError>
    ensures { OnOk result ((other : List ℕ) →
        option_map string_bytes (get_by_text extracts.new other) ≡
        (if bytes_eq key.now other && not (is_absent extract.now) then Some extract.now
        else option_map string_bytes (get_by_text extracts.old other))) }
{
    if !extract.is_empty() {
        extracts.insert(
            String::from_str(alloc, key)?,
            String::from_str(alloc, extract)?,
        )?;
    }
    Ok(())
}

impl KeyAssigner {
    pub fn new(alloc: Global) -> KeyAssigner
        ensures { HasAssigned result [] }
    {
        KeyAssigner {
            alloc,
            uses: BTreeMap::new(alloc),
            keys: Vec::new(alloc),
            extracts: BTreeMap::new(alloc),
        }
    }

    pub fn assign(&mut self, label: Label<'_>) -> Result<(), AllocError>
        requires { CanAssign self.old }
        ensures { OnOk result ((before : List tree.Label) → HasAssigned self.old before →
            HasAssigned self.new (label_view label.entry ∷ before)) }
    {
        let base = base_key(label);
        let count = uses_of(&self.uses, base);
        let key = numbered_key(self.alloc, base, count)?;
        count_once_more(self.alloc, &mut self.uses, base, count)?;
        keep_extract(self.alloc, &mut self.extracts, key.as_str(), label.extract)?;
        self.keys.push(PlaceholderKey { key, number: count })?;
        Ok(())
    }
}
