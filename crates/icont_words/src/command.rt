// The words as `clap` reads them.
ghost use Rattle.std.specs.Prelude.{◌≡◌, IfOk, false, map, string_bytes};
ghost use Rattle.clap.specs.Words.{app_of, rule_of};
ghost use Rattle.icont_words.specs.Command.{icont_app, option_rule};
ghost use Rattle.icont_words.specs.Matched.{IsMatched};

use crate::words::WordsFault;
use clap::error::ErrorKind;
use clap::{Arg, ArgAction, ArgMatches, Command};
use std::alloc::{AllocError, Global};

/// What `clap` makes of the words, which begin with the program's name.
///
/// # Errors
///
/// `Faulty(1)` where they are no command, `NoMemory` where memory ran out.
pub fn matches<'a>(alloc: Global, words: &'a [String]) -> Result<ArgMatches<'a>, WordsFault>
    ensures { IsMatched (map string_bytes words.now) result }
{
    match command(alloc)?.try_get_matches_from(words) {
        Ok(matches) => Ok(matches),
        Err(error) => match error.kind() {
            ErrorKind::OutOfMemory => Err(WordsFault::NoMemory),
            _ => Err(WordsFault::Faulty(1)),
        },
    }
}

// The command: `[-c] [-o name] [-n turns] [-g number] file ...`.
fn command<'a>(alloc: Global) -> Result<Command<'a>, AllocError>
    ensures { IfOk result (λ command. app_of command ≡ icont_app) }
{
    let units = Arg::new(alloc, "units")
        .short('c')
        .action(ArgAction::SetTrue);
    let file = Arg::new(alloc, "file").num_args(0..);
    Command::new(alloc, "icont")
        .disable_help_flag(true)
        .arg(units)?
        .arg(with_value(alloc, "image", 'o'))?
        .arg(with_value(alloc, "turns", 'n'))?
        .arg(with_value(alloc, "number", 'g'))?
        .arg(file)
}

// An option with a value, by its letter.
fn with_value<'a>(alloc: Global, id: &'a str, letter: char) -> Arg<'a>
    ensures rule { rule_of result ≡ option_rule id.now letter }
    ensures local { result.global ≡ false }
{
    Arg::new(alloc, id).short(letter).action(ArgAction::Set)
}
