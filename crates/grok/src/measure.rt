//! Measures the expanded text of a pattern, without expanding it.
ghost use Rattle.std.specs.Prelude.{◌≡◌, IfOk, map};
ghost use Rattle.grok.specs.Measured.{tree_of, measured_tree, measure_view};
ghost use Rattle.grok.specs.CountedMeasures.{IsCountedMeasure};

mod cache;
pub(crate) mod full_measure;
pub(crate) mod measurer;
pub(crate) mod partial_size;
mod placeholders;

use crate::defs::Grok;
use crate::errors::fault::Fault;
use crate::measure::full_measure::FullMeasure;
use crate::measure::measurer::Measurer;
use crate::settings::Settings;
use std::alloc::AllocError;

/// The result of measuring a pattern.
#[derive(Clone, Copy, PartialEq, Eq, Debug)]
pub enum Measure<'a> {
    /// The first structural fault in reading order.
    Fault(Fault<'a>),
    /// The size of the expanded text: its length in bytes, its number of groups with a generated
    /// name, and the greatest nesting of placeholders in levels.
    Size {
        length: usize,
        groups: usize,
        nesting: usize,
    },
    /// There is no structural fault, but the text is longer than the greatest `usize`.
    TooLong,
}

/// How many pieces and how many ends of texts measuring has read. A counter that reaches the
/// greatest `u64` stays there.
#[derive(Clone, Copy, PartialEq, Eq, Debug)]
pub struct Looks {
    pub pieces: u64,
    pub ends: u64,
}

impl Grok {
    /// Measures a pattern without expanding it: returns its first structural fault in reading
    /// order, or else the size of its expanded text. Each stored definition that it reaches is read
    /// once.
    pub fn measure<'a>(
        &'a self,
        pattern: &'a str,
        with_alias_only: bool,
    ) -> Result<Measure<'a>, AllocError>
        ensures { IfOk result (λ measure.
            measure_view measure ≡ measured_tree with_alias_only (tree_of self.now pattern.now)) }
    {
        let settings = Settings {
            grok: self,
            with_alias_only,
        };
        Ok(FullMeasure::of_pattern(settings, pattern)?.measure)
    }

    /// Measures several patterns in their order, each as [`Grok::measure`] does. A stored
    /// definition is read once for all of them, and again only if it was nested too deeply before
    /// and more levels are left now.
    pub fn measure_all<'a>(
        &'a self,
        patterns: &[&'a str],
        with_alias_only: bool,
    ) -> Result<Vec<Measure<'a>>, AllocError>
        ensures { IfOk result (λ measures. map measure_view measures.items
            ≡ map (λ pattern. measured_tree with_alias_only
            (tree_of self.now pattern.now)) patterns.now) }
    {
        let mut measurer = Measurer::new(Settings {
            grok: self,
            with_alias_only,
        });
        let mut measures = Vec::new(self.alloc());
        'patterns: for &pattern in patterns {
            let measure = measurer.measure_next(pattern)?;
            measures.push(measure)?;
        }
        Ok(measures)
    }

    /// Measures a pattern as [`Grok::measure`] does, and returns how many pieces and how many ends
    /// of texts it read.
    ///
    /// Each piece of the pattern and of each stored definition that it reaches is read at most
    /// once, and so is the end of each of these texts. Without a fault, each is read exactly once. With
    /// one, the pieces of the pattern itself are read up to the one that the fault is in.
    pub fn measure_counted<'a>(
        &'a self,
        pattern: &'a str,
        with_alias_only: bool,
    ) -> Result<(Measure<'a>, Looks), AllocError>
        ensures { IfOk result
            (λ r. IsCountedMeasure self.now with_alias_only pattern.now r.0 r.1) }
    {
        let settings = Settings {
            grok: self,
            with_alias_only,
        };
        let found = FullMeasure::of_pattern(settings, pattern)?;
        Ok((found.measure, found.looks()))
    }
}
