//! Reads a command from the words of a command line, which are its arguments.
ghost use Rattle.std.specs.Prelude.{◌≡◌};
ghost use Rattle.std.specs.Option.{option_map};
ghost use Rattle.grok_commands.specs.Commands.{texts, mode_of, request_of, check_of, command_of};
ghost use Rattle.grok_commands.specs.Views.{request_view, command_view};

use crate::definitions::Definitions;

/// The text that is printed if the words are no command.
pub const USAGE: &str = "usage: grok_tool split PATTERN | measure [-a] PATTERN [NAME=DEF].. \
    | match [-a] PATTERN [NAME=DEF].. | json [-a] PATTERN [NAME=DEF].. \
    | check [-a] [NAME=DEF]..";

/// A pattern, its definitions, and whether only placeholders with an alias capture.
#[derive(Drop)]
pub struct Request<'a> {
    pub alias_only: bool,
    pub pattern: &'a str,
    pub definitions: Definitions<'a>,
}

/// A command: what the program is asked to do.
#[derive(Drop)]
pub enum Command<'a> {
    /// Print the pieces of a pattern.
    Split(&'a str),
    /// Print the size of a pattern's expanded text.
    Measure(Request<'a>),
    /// Match each line of the input, and print the pairs.
    Match(Request<'a>),
    /// Match each line of the input, and print the pairs as a JSON object.
    Json(Request<'a>),
    /// Print the size of each definition.
    Check {
        alias_only: bool,
        definitions: Definitions<'a>,
    },
}

fn read_mode<'a>(words: &'a [&'a str]) -> (bool, &'a [&'a str])
    ensures { (result.0, texts result.1.now) ≡ mode_of (texts words.now) }
{
    match words {
        [word, rest @ ..] if *word == "-a" => (true, rest),
        _ => (false, words),
    }
}

fn read_request<'a>(words: &'a [&'a str]) -> Option<Request<'a>>
    ensures { option_map request_view result ≡ request_of (texts words.now) }
{
    let (alias_only, rest) = read_mode(words);
    let (pattern, rest) = rest.split_first()?;
    Some(Request {
        alias_only,
        pattern,
        definitions: Definitions::new(rest)?,
    })
}

fn read_check<'a>(words: &'a [&'a str]) -> Option<Command<'a>>
    ensures { option_map command_view result ≡ check_of (texts words.now) }
{
    let (alias_only, rest) = read_mode(words);
    Some(Command::Check {
        alias_only,
        definitions: Definitions::new(rest)?,
    })
}

/// Reads the words of a command line as a command. Returns `None` if they are no command.
pub fn read_command<'a>(words: &'a [&'a str]) -> Option<Command<'a>>
    ensures { option_map command_view result ≡ command_of (texts words.now) }
{
    let (name, rest) = words.split_first()?;
    match *name {
        "split" => match rest {
            [pattern] => Some(Command::Split(pattern)),
            _ => None,
        },
        "measure" => read_request(rest).map(Command::Measure),
        "match" => read_request(rest).map(Command::Match),
        "json" => read_request(rest).map(Command::Json),
        "check" => read_check(rest),
        _ => None,
    }
}
