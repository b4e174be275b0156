// What the words say together, and the task that it makes.
ghost use Rattle.std.specs.Prelude.{◌≡◌, List, [], map, string_bytes, unwrap_or, IfOk, codes, option_and_then};
ghost use Rattle.std.specs.Option.{option_map};
ghost use Rattle.icn_profile.specs.Numbers.{greatest_program, most_turns};
ghost use Rattle.clap.specs.Words.{all_of, found_of, rows_of};
ghost use Rattle.icn_text.specs.WordNumbers.{number_within};
ghost use Rattle.icn_text.specs.WordTexts.{texts};
ghost use Rattle.icont_words.specs.Words.{
  Piece,
  bound_of,
  files_task,
  is_wrong,
  number_with_others,
  order_of,
  task_of,
  turns_of,
  units_with_others,
  wrong_kind,
};
ghost use Rattle.icont_words.specs.Asking.{task_seen};
ghost use Rattle.icont_words.specs.Matched.{Holds, order_seen, text_of};

use crate::words::{Run, Task};
use clap::ArgMatches;
use icn_profile::{GREATEST_PROGRAM, MOST_TURNS};
use icn_text::number_within;
use std::alloc::{AllocError, Global};

const MOST_NUMBER: u64 = GREATEST_PROGRAM;

// What is said: whether units are asked for, the texts of the options, the names of files, and the arguments of a run.
#[derive(Drop)]
pub struct Order<'a> {
    pub units: bool,
    pub image: Option<&'a str>,
    pub turns: Option<&'a str>,
    pub number: Option<&'a str>,
    pub names: Vec<&'a str>,
    pub run: Option<&'a [String]>,
}

/// What the matches hold, with the arguments of a run.
///
/// # Errors
///
/// Memory ran out.
pub fn order_of<'a>(
    alloc: Global,
    matches: &ArgMatches<'a>,
    run: Option<&'a [String]>,
) -> Result<Order<'a>, AllocError>
    ensures { IfOk result (λ order. (pieces : List Piece) → Holds (rows_of (found_of matches.now)) pieces
        → order_seen order ≡ order_of pieces (option_map (λ words. map string_bytes words.now) run.entry)) }
{
    Ok(Order {
        units: matches.get_flag("units"),
        image: matches.get_str("image"),
        turns: matches.get_str("turns"),
        number: matches.get_str("number"),
        names: names_of(alloc, matches)?,
        run,
    })
}

fn names_of<'a>(alloc: Global, matches: &ArgMatches<'a>) -> Result<Vec<&'a str>, AllocError>
    ensures { IfOk result
        (λ names. texts names.items ≡ unwrap_or (all_of (codes "file") (rows_of (found_of matches.now))) []) }
{
    match matches.get_strs("file") {
        Some(names) => Vec::from_slice(alloc, names),
        None => Ok(Vec::new(alloc)),
    }
}

/// In which way an order is wrong, if it is: 4 where a number is out of its form or range, 6 where what is said does not go
/// together, 2 where there is nothing to do.
pub fn wrong_kind(order: &Order<'_>) -> Option<u8>
    ensures { result ≡ wrong_kind (order_seen order.now) }
{
    if is_wrong(order.turns, 0, MOST_TURNS) || is_wrong(order.number, 1, MOST_NUMBER) {
        Some(4)
    } else if units_with_others(order) || number_with_others(order) {
        Some(6)
    } else if order.names.is_empty() && order.number.is_none() {
        Some(2)
    } else {
        None
    }
}

fn is_wrong(text: Option<&str>, low: u64, high: u64) -> bool
    ensures { result ≡ is_wrong (number_within low high) (text_of text.entry) }
{
    match text {
        Some(text) => number_within(text.as_bytes(), low, high).is_none(),
        None => false,
    }
}

fn units_with_others(order: &Order<'_>) -> bool
    ensures { result ≡ units_with_others (order_seen order.now) }
{
    order.units && (order.image.is_some() || order.run.is_some())
}

fn number_with_others(order: &Order<'_>) -> bool
    ensures { result ≡ number_with_others (order_seen order.now) }
{
    order.number.is_some()
        && (order.units || order.image.is_some() || order.run.is_some() || !order.names.is_empty())
}

/// The task of an order that is not wrong.
pub fn task_of(order: Order<'_>) -> Task<'_>
    ensures { task_seen result ≡ task_of (order_seen order.entry) }
{
    let turns = bound_of(order.turns);
    match number_of(order.number) {
        Some(number) => Task::Generate { number, turns },
        None => files_task(order, turns),
    }
}

fn number_of(text: Option<&str>) -> Option<u16>
    ensures { result ≡ option_and_then (number_within 1 greatest_program) (text_of text.entry) }
{
    let number = number_within(text?.as_bytes(), 1, MOST_NUMBER)?;
    u16::try_from(number).ok()
}

fn files_task(order: Order<'_>, turns: u64) -> Task<'_>
    ensures { turns ≡ bound_of (order_seen order.entry)
        → task_seen result ≡ files_task (order_seen order.entry) }
{
    if order.units {
        return Task::Translate(order.names);
    }
    let run = match order.run {
        Some(arguments) => Some(Run { arguments, turns }),
        None => None,
    };
    Task::Link {
        names: order.names,
        image: order.image,
        run,
    }
}

fn bound_of(text: Option<&str>) -> u64
    ensures { result ≡ unwrap_or (option_and_then turns_of (text_of text.entry)) most_turns }
{
    match text {
        Some(text) => number_within(text.as_bytes(), 0, MOST_TURNS).unwrap_or(MOST_TURNS),
        None => MOST_TURNS,
    }
}
