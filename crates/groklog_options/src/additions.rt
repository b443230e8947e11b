//! What options add to the fields of an answer.
ghost use Rattle.std.specs.Prelude.{◌≡◌, map, IfOk};
ghost use Rattle.clap.specs.Matches.{found_of};
ghost use Rattle.groklog_answers.specs.Layouts.{added_pair};
ghost use Rattle.groklog_options.specs.Additions.{added_in, option_of};

use clap::ArgMatches;
use groklog_answers::{Added, Addition};
use std::alloc::{AllocError, Global};

/// What can be added, in the order in which an answer has it.
const ADDITIONS: [Addition; 5] = [
    Addition::Number,
    Addition::File,
    Addition::Failed,
    Addition::Tag,
    Addition::Line,
];

/// Returns the name of the option that adds this. Its value is the key.
pub fn option_of(what: Addition) -> &'static str
    ensures { result.now ≡ option_of what }
{
    match what {
        Addition::Number => "number",
        Addition::File => "file",
        Addition::Failed => "failed",
        Addition::Tag => "tag",
        Addition::Line => "keep",
    }
}

/// Returns what the command line adds, in the order in which an answer has it.
pub fn added_of<'a>(alloc: Global, matches: &ArgMatches<'a>) -> Result<Vec<Added<'a>>, AllocError>
    ensures { IfOk result (λ added. map added_pair added.items ≡ added_in (found_of matches.now)) }
{
    let mut added = Vec::new(alloc);
    'additions: for what in &ADDITIONS {
        let what = *what;
        if let Some(key) = matches.get_str(option_of(what)) {
            added.push(Added { what, key })?;
        }
    }
    Ok(added)
}
