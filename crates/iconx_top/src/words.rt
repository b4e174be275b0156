// The words of the command line.
ghost use Rattle.std.specs.Prelude.{◌≡◌, map, string_bytes};
ghost use Rattle.std.specs.Option.{option_map};
ghost use Rattle.icn_value.specs.Limited.{default_limits, limits_of};
ghost use Rattle.iconx_top.specs.Words.{words_reading, words_behind, image_asked, is_dashed, migration, with_limit, option_of, options};
ghost use Rattle.iconx_top.specs.Asking.{migration_or_kind, reading_of, run_or_kind};

use icn_profile::{MOST_CELLS, MOST_LEVELS, MOST_STRINGS, MOST_TURNS};
use icn_text::number_within;
use icn_value::Limits;

/// What the words ask for: a run of an image.
#[derive(Clone, Copy)]
pub struct RunAsked<'a> {
    pub image: &'a str,
    pub arguments: &'a [String],
    pub limits: Limits,
}

/// What the words ask for: under a new name the second version of an image.
#[derive(Clone, Copy)]
pub struct MigrationAsked<'a> {
    pub new_name: &'a str,
    pub image: &'a str,
}

/// What the words ask for.
#[derive(Clone, Copy)]
pub enum CommandAsked<'a> {
    Run(RunAsked<'a>),
    Migration(MigrationAsked<'a>),
}

// An option that sets a limit.
#[derive(Clone, Copy, Debug, PartialEq, Eq)]
pub enum Limit {
    Turns,
    Strings,
    Cells,
    Levels,
}

/// What the words ask for.
///
/// # Errors
///
/// The way in which the first wrong word is wrong: 2 where no image is named, 3 for an option without its value, or for `-m`
/// without a name, 4 for a value that is no number in its range, 5 for another word that begins with `-`, 7 for a word behind
/// the image of `-m`.
pub fn read_command(words: &[String]) -> Result<CommandAsked<'_>, u8>
    ensures { reading_of result ≡ words_reading (map string_bytes words.now) }
{
    match words.split_first() {
        Some((_, behind)) => read_behind(behind),
        None => Err(2),
    }
}

// What the words behind the program's name ask for.
fn read_behind(words: &[String]) -> Result<CommandAsked<'_>, u8>
    ensures { reading_of result ≡ words_behind (map string_bytes words.now) }
{
    let Some((word, others)) = words.split_first() else {
        return Err(2);
    };
    if word.as_str() == "-m" {
        return Ok(CommandAsked::Migration(read_migration(others)?));
    }
    Ok(CommandAsked::Run(options(words)?))
}

// The new name and the image, which stand behind `-m`.
fn read_migration(words: &[String]) -> Result<MigrationAsked<'_>, u8>
    ensures { migration_or_kind result ≡ migration (map string_bytes words.now) }
{
    match words {
        [] => Err(3),
        [_] => Err(2),
        [new_name, image] => Ok(MigrationAsked {
            new_name: new_name.as_str(),
            image: image.as_str(),
        }),
        _ => Err(7),
    }
}

// The run that the words behind the program's name ask for.
fn options(words: &[String]) -> Result<RunAsked<'_>, u8>
    ensures { run_or_kind result ≡ options default_limits (map string_bytes words.now) }
{
    let mut limits = Limits::standard();
    let mut rest = words;
    while let Some((word, others)) = rest.split_first() {
        let Some(option) = option_of(word.as_str()) else {
            return read_image_name(limits, word.as_str(), others);
        };
        let Some((value, behind)) = others.split_first() else {
            return Err(3);
        };
        let Some(next) = set_limit(option, limits, value.as_str()) else {
            return Err(4);
        };
        limits = next;
        rest = behind;
    }
    Err(2)
}

fn read_image_name<'a>(
    limits: Limits,
    word: &'a str,
    arguments: &'a [String],
) -> Result<RunAsked<'a>, u8>
    ensures { run_or_kind result ≡ image_asked (limits_of limits) word.now (map string_bytes arguments.now) }
{
    if is_dashed(word) {
        return Err(5);
    }
    Ok(RunAsked {
        image: word,
        arguments,
        limits,
    })
}

fn is_dashed(word: &str) -> bool
    ensures { result ≡ is_dashed word.now }
{
    match word.as_bytes().first() {
        Some(byte) => *byte == b'-',
        None => false,
    }
}

// The option that a word is.
fn option_of(word: &str) -> Option<Limit>
    ensures { result ≡ option_of word.now }
{
    match word {
        "-n" => Some(Limit::Turns),
        "-s" => Some(Limit::Strings),
        "-b" => Some(Limit::Cells),
        "-l" => Some(Limit::Levels),
        _ => None,
    }
}

// The limits with this one as a word says it.
fn set_limit(option: Limit, limits: Limits, value: &str) -> Option<Limits>
    ensures { option_map limits_of result ≡ with_limit option (limits_of limits) value.now }
{
    let text = value.as_bytes();
    match option {
        Limit::Turns => Some(Limits {
            turns: number_within(text, 0, MOST_TURNS)?,
            strings: limits.strings,
            cells: limits.cells,
            levels: limits.levels,
        }),
        Limit::Strings => Some(Limits {
            turns: limits.turns,
            strings: number_within(text, 0, MOST_STRINGS)?,
            cells: limits.cells,
            levels: limits.levels,
        }),
        Limit::Cells => Some(Limits {
            turns: limits.turns,
            strings: limits.strings,
            cells: number_within(text, 0, MOST_CELLS)?,
            levels: limits.levels,
        }),
        Limit::Levels => Some(Limits {
            turns: limits.turns,
            strings: limits.strings,
            cells: limits.cells,
            levels: number_within(text, 1, MOST_LEVELS)?,
        }),
    }
}
