//! The texts of a match's groups, kept as a list of texts or as byte ranges of the line.
ghost use Rattle.std.specs.Prelude.{◌≡◌, IfSome, option_map, slice_range};
ghost use Rattle.grok.specs.Captures.{text_of, capture_texts};
ghost use Rattle.grok.specs.Locations.{IsLocationIn, AreLocationsIn, located_texts, location_at};
ghost use Rattle.grok.specs.Answers.{capture_at};

use std::ops::Range;

/// The byte ranges of the groups of a match in its line.
#[derive(Clone, Copy)]
pub(crate) struct Located<'a> {
    line: &'a str,
    /// The start and the end of each group in bytes, from group 0 on. It is `None` for a group that
    /// took no part in the match.
    locations: &'a [Option<(usize, usize)>],
    ghost inside: { AreLocationsIn line.now locations.now },
}

/// The texts of a match's groups.
#[derive(Clone, Copy)]
pub(crate) enum GroupTexts<'a> {
    /// A list of texts, from group 0 on.
    Listed(&'a [Option<&'a str>]),
    /// Byte ranges of the line.
    Located(Located<'a>),
}

pub(crate) fn capture_of<'a>(captures: &[Option<&'a str>], group: usize) -> Option<&'a str>
    ensures { option_map text_of result ≡ capture_at (capture_texts captures.now) group }
{
    captures.get(group).copied()?
}

impl<'a> Located<'a> {
    pub(crate) fn new(line: &'a str, locations: &'a [Option<(usize, usize)>]) -> Located<'a>
        requires { AreLocationsIn line.now locations.now }
        ensures line { result.line.now ≡ line.now }
        ensures locations { result.locations.now ≡ locations.now }
    {
        Located { line, locations }
    }

    #[tactic(auto, using(crate::proofs::Captures::GroupsLieInLine::location_in))]
    fn location(&self, group: usize) -> Option<(usize, usize)>
        ensures at { result ≡ location_at self.now.locations.now group }
        ensures inside { IfSome result (IsLocationIn self.now.line.now) }
    {
        self.locations.get(group).copied()?
    }

    #[tactic(auto, using(crate::proofs::Captures::GroupsLieInLine::text_located))]
    pub(crate) fn range(&self, group: usize) -> Option<Range<usize>>
        ensures at { option_map (λ range. (range.start, range.end)) result ≡ location_at self.now.locations.now group }
        ensures text { option_map (λ range. slice_range self.now.line.now range.start range.end) result
            ≡ capture_at (located_texts self.now.line.now self.now.locations.now) group }
        ensures inside { IfSome result (λ range. IsLocationIn self.now.line.now (range.start, range.end)) }
    {
        let (start, end) = self.location(group)?;
        Some(start..end)
    }

    #[tactic(auto, using(crate::proofs::Captures::GroupsLieInLine::text_located))]
    pub(crate) fn get(&self, group: usize) -> Option<&'a str>
        ensures { option_map text_of result
            ≡ capture_at (located_texts self.now.line.now self.now.locations.now) group }
    {
        let (start, end) = self.location(group)?;
        Some(&self.line[start..end])
    }
}

impl<'a> GroupTexts<'a> {
    ghost use Rattle.grok.specs.Groups.{group_texts};

    pub(crate) fn get(&self, group: usize) -> Option<&'a str>
        ensures { option_map text_of result ≡ capture_at (group_texts self.now) group }
    {
        match self {
            GroupTexts::Listed(captures) => capture_of(captures, group),
            GroupTexts::Located(located) => located.get(group),
        }
    }
}
