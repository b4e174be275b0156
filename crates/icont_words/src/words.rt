// The words of the command line.
ghost use Rattle.std.specs.Prelude.{◌≡◌, map, string_bytes};
ghost use Rattle.std.specs.Option.{option_map};
ghost use Rattle.icont_words.specs.declared.words.WordsFault.TheVariants.{NoMemory};
ghost use Rattle.icont_words.specs.Words.{before_run, behind_run, own_words};
ghost use Rattle.icont_words.specs.Asking.{IsReading};

use crate::command::matches;
use crate::order::{order_of, task_of, wrong_kind};
use std::alloc::{AllocError, Global};

/// How a program is run: with these arguments, under this bound of turns.
#[derive(Clone, Copy, Debug)]
pub struct Run<'a> {
    pub arguments: &'a [String],
    pub turns: u64,
}

/// What the words ask for.
#[derive(Debug, Drop)]
pub enum Task<'a> {
    /// The units of these files as ucode.
    Translate(Vec<&'a str>),
    /// The image of the program of these files, perhaps under a name of its own, and perhaps a run of it.
    Link {
        names: Vec<&'a str>,
        image: Option<&'a str>,
        run: Option<Run<'a>>,
    },
    /// The program of this number, from 1 to 2000, run under this bound of turns.
    Generate {
        number: u16,
        turns: u64,
    },
}

/// Why the words ask for nothing.
#[derive(Clone, Copy, Debug, PartialEq, Eq)]
pub enum WordsFault {
    /// They are faulty in the way of this number: 1 where they are no command, 4 where a number is out of its form or range, 6
    /// where what they say does not go together, 2 where there is nothing to do.
    Faulty(u8),
    /// Memory ran out.
    NoMemory,
}

impl From<AllocError> for WordsFault {
    ghost from_gives = { λ _ fault. fault ≡ NoMemory };

    fn from(_: AllocError) -> Self {
        WordsFault::NoMemory
    }
}

/// What the words ask for. They begin with the program's name; an empty list counts as that name alone.
///
/// # Errors
///
/// `Faulty` with the kind of what is wrong, looked for in the order 1, 4, 6, 2. `NoMemory` where memory ran out.
pub fn read_command<'a>(alloc: Global, words: &'a [String]) -> Result<Task<'a>, WordsFault>
    ensures { IsReading (map string_bytes words.now) result }
{
    let (command, run) = split_at_run(words);
    let matches = matches(alloc, command)?;
    let order = order_of(alloc, &matches, run)?;
    match wrong_kind(&order) {
        Some(kind) => Err(WordsFault::Faulty(kind)),
        None => Ok(task_of(order)),
    }
}

// The words before the first `-x`, which is not the program's name, and those behind it.
fn split_at_run(words: &[String]) -> (&[String], Option<&[String]>)
    ensures before { own_words (map string_bytes result.0.now)
        ≡ before_run (own_words (map string_bytes words.now)) }
    ensures behind { option_map (λ run. map string_bytes run.now) result.1
        ≡ behind_run (own_words (map string_bytes words.now)) }
{
    let mut place = 1;
    while place < words.len() {
        if words[place].as_str() == "-x" {
            return (&words[..place], Some(&words[place + 1..]));
        }
        place += 1;
    }
    (words, None)
}
