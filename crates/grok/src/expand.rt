//! Reads the tree of a pattern: its events, its keys, and its first clash.

pub(crate) mod clash_search;
pub(crate) mod events;
pub(crate) mod first_clash;
pub(crate) mod key_assigner;
pub(crate) mod known_parts;
pub(crate) mod numbered;
pub(crate) mod placeholder_key;
pub(crate) mod read_rows;
pub(crate) mod rows;
pub(crate) mod uses;
