//! The search that many calls share, one at a time.
ghost use Rattle.std.specs.Prelude.{length, IfOk};
ghost use Rattle.regex.specs.Strings.{regex_names};
ghost use Rattle.regex_shared.specs.Texts.{texts_if, IsMatchIn, IsReadByDefault, captures_by};

use crate::regex_search::RegexSearch;
use regex::Regex;
use regex_vm::Declined;
use std::alloc::{AllocError, Global};
use std::sync::Mutex;

/// How far a shared search is.
#[derive(Drop)]
enum Stage {
    /// No call has used it yet. A single line is searched faster without it.
    Unused,
    /// One call has used it. The next one builds the search.
    UsedOnce,
    Built(Box<RegexSearch>),
}

/// The search that all calls for one regex share. The second call builds it, and later calls use it
/// again. A call never waits for another one that is using it.
pub struct SharedSearch {
    stage: Mutex<Stage>,
}

// Not derived: the proof of a crate that drops a shared search then has one call here, and not the
// drop of each automaton.
impl Drop for SharedSearch {
    fn drop(self) {
        let SharedSearch { stage: _stage } = self;
    }
}

impl SharedSearch {
    /// Makes a shared search that no call has used yet.
    pub fn new() -> SharedSearch {
        SharedSearch {
            stage: Mutex::new(Stage::Unused),
        }
    }

    /// Searches for the first match of the regex in the line, and returns whether there is one. If
    /// so, `texts` has the text of each group, from group 0 on, with `None` for a group that took no
    /// part in the match. Its old contents are lost.
    ///
    /// # Errors
    ///
    /// `Declined` if this is the first call, if another call is using the search, if an earlier call
    /// was for another regex, if the search gives up, or if an allocation fails. The caller then
    /// searches the line without the shared search.
    pub fn write_captures<'t>(
        &self,
        alloc: Global,
        regex: &Regex,
        line: &'t str,
        texts: &mut Vec<Option<&'t str>>,
    ) -> Result<bool, Declined>
        requires { ∥ IsReadByDefault regex.now ∥₁ }
        ensures { IfOk result (λ is_match. IsMatchIn line.now (captures_by regex.now)
            (length (regex_names regex.now)) (texts_if is_match texts.new)) }
    {
        match self.stage.try_lock() {
            Some(mut stage) => stage
                .search(alloc, regex.as_str())?
                .write_captures(regex, line, texts),
            None => Err(Declined),
        }
    }
}

impl Stage {
    /// Returns the search, unless this is the first call. The second call builds it.
    fn search(&mut self, alloc: Global, text: &str) -> Result<&mut RegexSearch, Declined> {
        match self {
            Stage::Unused => *self = Stage::UsedOnce,
            Stage::UsedOnce => *self = Stage::Built(boxed(alloc, text)?),
            Stage::Built(_) => {}
        }
        match self {
            Stage::Built(search) => Ok(search),
            Stage::Unused | Stage::UsedOnce => Err(Declined),
        }
    }
}

#[cold]
#[inline(never)]
fn boxed(alloc: Global, text: &str) -> Result<Box<RegexSearch>, Declined> {
    let search = RegexSearch::build(alloc, text)?;
    match Box::new(alloc, search) {
        Ok(search) => Ok(search),
        Err(failed) => Err(AllocError::from(failed).into()),
    }
}
