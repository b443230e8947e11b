//! A file that was read whole.

/// The name and the text of a file.
#[derive(Drop)]
pub struct TextFile {
    pub name: String,
    pub text: String,
}
