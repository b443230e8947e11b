//! The commands of the program `grok_tool`: what it does with its words, its input and its output.
//!
//! Where a call has no section `# Errors`, its error is a failed allocation.
#![tactic(auto)]

ghost use Rattle.grok_commands.specs.Commands.{texts, command_of};
ghost use Rattle.grok_commands.specs.Runs.{IsRunOf};
ghost use Rattle.grok_lines.specs.Traffic.{traffic};

mod check;
mod command;
mod definitions;
mod fault;
mod json_object;
pub mod laws;
mod line_answers;
mod matching;
mod measure;
mod split;

use command::{Command, read_command};
pub use fault::ToolFault;
use line_answers::LineFormat;
use matching::answer_input;
use std::alloc::Global;
use std::io::{Read, Write};

/// Runs the command that `words` are: reads from `input` and writes the answers to `output`.
/// Answers are held back until there are many bytes of them. They are sent, and the output is
/// flushed, before each read of the input and before the run ends. A run that ends with a fault
/// sends them too, unless the fault is that the output failed.
///
/// # Errors
///
/// - `Usage` if the words are no command. Nothing was read or written.
/// - `Pattern` if the pattern has a fault or the engine refuses it. Nothing was read or written.
/// - `Memory` if an allocation fails. Some answers may have been written: the first ones, each as a
///   whole.
/// - `Read` if the input fails. The answers to the lines that had ended by then were written.
/// - `Write` if the output fails. `match` and `json` have then written a beginning of the answers to the
///   lines that were read. For the other commands it isn't stated how much was written.
pub fn run<R: Read, W: Write>(
    alloc: Global,
    words: &[&str],
    input: &mut R,
    output: &mut W,
) -> Result<(), ToolFault>
    ensures { IsRunOf (command_of (texts words.now)) result (traffic
        (R.remaining input.old) (R.remaining input.new)
        (W.contents output.old) (W.contents output.new)) }
{
    let Some(command) = read_command(words) else {
        return Err(ToolFault::Usage);
    };
    match command {
        Command::Split(pattern) => split::split(alloc, pattern, output),
        Command::Measure(request) => measure::measure_pattern(alloc, &request, output),
        Command::Match(request) => answer_input(alloc, LineFormat::Pairs, &request, input, output),
        Command::Json(request) => answer_input(alloc, LineFormat::Object, &request, input, output),
        Command::Check {
            alias_only,
            definitions,
        } => check::check_definitions(alloc, alias_only, &definitions, output),
    }
}
