//! All that measuring a pattern finds out, as compiling and diagnosing need it.
ghost use Rattle.std.specs.Prelude.{◌≡◌, IfOk, map};
ghost use Rattle.std.specs.List.Sorted.{IsPermutation, IsNonDecreasingBy};
ghost use Rattle.grok.specs.steps.FullMeasures.{IsFullMeasure, levels_of, levels_and_name};

use crate::errors::fault::MAX_NESTING;
use crate::measure::cache::Progress;
use crate::measure::measurer::Measurer;
use crate::measure::partial_size::measure_of_result;
use crate::measure::{Looks, Measure};
use crate::settings::Settings;
use std::alloc::{AllocError, Global};

/// All that measuring a pattern finds out.
#[derive(Drop)]
pub(crate) struct FullMeasure<'a> {
    pub measure: Measure<'a>,
    /// The measurer that measured the pattern. It remembers the definitions that it read.
    pub measurer: Measurer<'a>,
}

impl<'a> FullMeasure<'a> {
    pub fn of_pattern(
        settings: Settings<'a>,
        pattern: &'a str,
    ) -> Result<FullMeasure<'a>, AllocError>
        ensures { IfOk result (IsFullMeasure settings.entry pattern.now) }
    {
        let mut measurer = Measurer::new(settings);
        let answer = measurer.measure_within(pattern, MAX_NESTING)?;
        Ok(FullMeasure {
            measure: measure_of_result(answer),
            measurer,
        })
    }

    pub fn looks(&self) -> Looks
        ensures { result ≡ self.now.measurer.cache.looks }
    {
        self.measurer.cache.looks
    }

    pub fn has_numbered(&self) -> bool
        ensures { result ≡ self.now.measurer.cache.has_numbered }
    {
        self.measurer.cache.has_numbered
    }

    /// A name comes after the names that its definition uses, since its definition needs more levels. Names
    /// whose definitions have a fault, or weren't read to the end, come last, with `usize::MAX`.
    pub fn read_names(&self, alloc: Global) -> Result<Vec<(usize, &'a str)>, AllocError>
        ensures all { IfOk result (λ names. IsPermutation
            (map levels_and_name self.now.measurer.cache.by_name.entries) names.items) }
        ensures sorted { IfOk result (λ names. IsNonDecreasingBy (λ pair. pair.0) names.items) }
    {
        let mut names = Vec::new(alloc);
        'names: for (name, progress) in &self.measurer.cache.by_name {
            names.push((levels_of(progress), *name))?;
        }
        names.sort()?;
        Ok(names)
    }
}

fn levels_of(progress: &Progress<'_>) -> usize
    ensures { result ≡ levels_of progress.now }
{
    match progress {
        Progress::HasSize(sum) => sum.height,
        Progress::InProgress | Progress::HasFault(_) | Progress::NeedsMoreThan(_) => usize::MAX,
    }
}
