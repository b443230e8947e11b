//! Writes what a match found as lines `KEY=VALUE`.
ghost use Rattle.std.specs.Prelude.{◌≡◌, ◌++◌, OnOk};
ghost use Rattle.grok_lines.specs.Pairs.{pair_line};

use std::alloc::AllocError;

/// Appends `KEY=VALUE` and a line feed. If an allocation fails, a part of the line may have been appended.
pub fn append_pair(text: &mut Vec<u8>, key: &str, value: &str) -> Result<(), AllocError>
    ensures { OnOk result (text.new.items ≡ text.old.items ++ pair_line (key.now, value.now)) }
{
    text.extend_from_slice(key.as_bytes())?;
    text.push(b'=')?;
    text.extend_from_slice(value.as_bytes())?;
    text.push(b'\n')?;
    Ok(())
}
