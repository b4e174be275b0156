// The names of procedures and records.
ghost use Rattle.std.specs.Prelude.{◌≡◌, ◌<◌, ◌+◌, ℕ, List, length, slice_get, unwrap_or, []};
ghost use Rattle.icn_defs.specs.Images.{procedure_name};
ghost use Rattle.icn_defs.specs.NamedValues.{arguments_of};
ghost use Rattle.icn_convert.specs.ProgramNames.{name_count, kind_of, constructor_name};

/// What a procedure value is.
#[derive(Clone, Copy, Debug, PartialEq, Eq)]
pub enum ProcKind {
    /// A procedure of the program.
    Procedure,
    /// A record constructor.
    Constructor,
    /// A function of the language.
    Function,
}

/// The names that a program gives its procedures and records. No call takes memory.
pub trait Names {
    ghost use Rattle.icn_value.specs.Store.{Names as TheNames};

    /// The names of the procedures, and those of the constructors.
    ghost known: { Self → TheNames };

    /// A text names each of them.
    ghost none_hidden: { (names : Self) → (known names).hidden ≡ [] };

    /// How many of them there are, with the constructors and the functions.
    fn count(&self) -> u32
        ensures { result ≡ name_count (known self.now) };

    /// The name of a procedure, a constructor or a function, by its number among all of these.
    fn proc(&self, number: u32) -> &[u8]
        requires { number < name_count (known self.now) }
        ensures { result.now ≡ procedure_name (known self.now) number };

    /// How many arguments it takes: below 0 where the last parameter collects those that are left, and of a function that takes any
    /// number -1.
    fn arguments(&self, number: u32) -> i64
        requires { number < name_count (known self.now) }
        ensures { result ≡ arguments_of (known self.now) number };

    /// Which of these it is.
    fn proc_kind(&self, number: u32) -> ProcKind
        requires { number < name_count (known self.now) }
        ensures { result ≡ kind_of (known self.now) number };

    /// The name of a record, by the number of its constructor among all constructors.
    fn rec(&self, kind: u16) -> &[u8]
        requires { kind < length (known self.now).records }
        ensures { result.now ≡ constructor_name (known self.now) kind };
}
