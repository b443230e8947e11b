//! Writes the text of a tree, and assigns its keys, in one reading.
ghost use Rattle.std.specs.Prelude.{◌≡◌, List, [], ◌∷◌, length, IfOk, OnOk, None, true};
ghost use Rattle.std.specs.String.{string_bytes, string_capacity};
ghost use Rattle.std.specs.FinMap as finite;
ghost use Rattle.grok.specs.Tree as tree;
ghost use Rattle.grok.specs.Tree.{first_structural, tree as tree_of};
ghost use Rattle.grok.specs.Items.{label_view};
ghost use Rattle.grok.specs.Expanded.{expanded};
ghost use Rattle.grok.specs.steps.AssignedKeys.{HasKeys};
ghost use Rattle.grok.specs.steps.FaultSearches.{is_fault};
ghost use Rattle.grok.specs.steps.Searches.{IsReadyFor, Passes};
ghost use Rattle.grok.specs.steps.Writes.{CanWrite, HasWritten};

use crate::defs::definition::Definition;
use crate::defs::items::Label;
use crate::descend::{Search, descend};
use crate::expand::events::Event;
use crate::expand::key_assigner::KeyAssigner;
use crate::generated_name::{CLOSE, UNNAMED, put, put_head};
use crate::settings::Settings;
use std::alloc::AllocError;

/// What a pattern without a fault expands to.
#[derive(Drop)]
pub(crate) struct ExpandedPattern {
    pub text: String,
    /// The keys and extracts of the capturing placeholders.
    pub keys: KeyAssigner,
}

/// Writes the events of a tree, up to a structural fault.
#[derive(Drop)]
struct Writer<'a> {
    settings: Settings<'a>,
    text: String,
    keys: KeyAssigner,
}

impl Writer<'_> {
    /// Writes the start of a placeholder's group. If the placeholder captures, the group has a name,
    /// and the placeholder gets its key.
    fn open(&mut self, label: Label<'_>) -> Result<(), AllocError>
        requires { (meaning : tree.Meaning) → IsReadyFor CanWrite self.old (tree.Open (label_view label) meaning ∷ []) }
        ensures written { OnOk result ((meaning : tree.Meaning) →
            Passes CanWrite HasWritten self.old (tree.Open (label_view label.entry) meaning ∷ []) self.new) }
        ensures settings { OnOk result (self.new.settings ≡ self.old.settings) }
    {
        if !label.is_capturing(self.settings.with_alias_only) {
            put(&mut self.text, UNNAMED);
            return Ok(());
        }
        put_head(&mut self.text, self.keys.keys.len());
        self.keys.assign(label)
    }
}

impl<'a> Search<'a> for Writer<'a> {
    ghost definitions = { λ writer. finite.get writer.settings.grok.now };

    ghost IsReady = { CanWrite };

    ghost HasPassed = { HasWritten };

    ghost IsSought = { λ start es event. is_fault event ≡ true };

    fn pass_event(&mut self, event: Event<'a>) -> Result<bool, AllocError> {
        match event {
            Event::Text(text) => put(&mut self.text, text),
            Event::Open(label, _) => self.open(label)?,
            Event::Close => put(&mut self.text, CLOSE),
            Event::Fault(_) => return Ok(false),
        }
        Ok(true)
    }

    fn pass_definition(
        &mut self,
        _name: &'a str,
        _definition: &'a Definition,
        _levels: usize,
    ) -> Result<bool, AllocError> {
        Ok(false)
    }
}

pub(crate) fn write(
    settings: Settings<'_>,
    pattern: &str,
    text: String,
) -> Result<ExpandedPattern, AllocError>
    requires clean { first_structural (tree_of (finite.get settings.grok.now) pattern.now) ≡ None }
    requires empty { string_bytes text ≡ [] }
    requires room { string_capacity text
        ≡ length (expanded settings.with_alias_only (tree_of (finite.get settings.grok.now) pattern.now)) }
    ensures text { IfOk result (λ out. string_bytes out.text ≡ expanded settings.entry.with_alias_only
        (tree_of (finite.get settings.entry.grok.now) pattern.now)) }
    ensures keys { IfOk result (λ out. HasKeys settings.entry.with_alias_only
        (tree_of (finite.get settings.entry.grok.now) pattern.now) out.keys) }
{
    let mut writer = Writer {
        settings,
        text,
        keys: KeyAssigner::new(settings.grok.alloc()),
    };
    descend(settings.grok, &mut writer, pattern)?;
    Ok(ExpandedPattern {
        text: writer.text,
        keys: writer.keys,
    })
}
