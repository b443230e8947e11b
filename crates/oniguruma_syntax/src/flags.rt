//! The flags of groups.

/// The flags of a group, or those that are set for what follows.
#[derive(Clone, Copy)]
pub(crate) struct FlagChange<'a> {
    /// The letters of the flags that are set.
    pub on: &'a str,
    /// The letters of the flags that are taken away.
    pub off: &'a str,
}

/// Reads flags such as `i-m`. The letters before the first hyphen are set, and those after it are
/// taken away.
pub(crate) fn read_flags(flags: &str) -> FlagChange<'_> {
    let (on, off) = flags.split_once('-').unwrap_or((flags, ""));
    FlagChange { on, off }
}

/// Returns whether the flag `x` is set after these flags, if `is_set` says whether it was set before
/// them.
pub(crate) fn sets_extended(flags: &str, is_set: bool) -> bool {
    let FlagChange { on, off } = read_flags(flags);
    (is_set || on.contains('x')) && !off.contains('x')
}
