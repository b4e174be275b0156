// A saved run.
ghost use Rattle.std.specs.Prelude.{IsTrue, map, string_bytes};
ghost use Rattle.icn_value.specs.Limited.{limits_of};
ghost use Rattle.icn_save.specs.Saves.{calls_of, keeps_format};

use crate::call::SavedCall;
use icn_tree::Bytes;
use icn_value::Limits;

/// A run that stands at its bound of turns: all that it took from outside, and how much it put. Each count and each length of a save
/// fits its number in the bytes, so that every save is written and read back.
#[derive(Debug, Drop)]
pub struct Save {
    /// Its limits. It has made as many turns as they allow, and one more is due.
    pub limits: Limits,
    /// Its argument words.
    pub words: Vec<String>,
    /// The image of its code, as it was read.
    pub image: Bytes,
    /// What it took of the input.
    pub input: Bytes,
    /// Whether a call on the input showed its end.
    pub ended: bool,
    /// How many bytes it put on the output.
    pub output: u64,
    /// How many it put on the error output, without the report of the bound.
    pub errors: u64,
    /// Its calls of the store of files, in their order.
    pub calls: Vec<SavedCall>,
    ghost format: { IsTrue (keeps_format (record {
      bounds = limits_of limits;
      words = map string_bytes words.items;
      image = image;
      input = input;
      ended = ended;
      output = output;
      errors = errors;
      calls = calls_of calls.items;
    })) },
}
