// The numbers of the profile.

/// How many bytes a file of a program has at most, and so have all lines that a named file gives.
pub const MOST_BYTES_OF_SOURCE: u64 = 16777216;

/// How many bytes a name or a literal has at most.
pub const MOST_BYTES_OF_NAME: u64 = 65535;

/// How many digits such a literal has at most in ucode, two a byte.
pub const MOST_HEXADECIMAL_DIGITS: u64 = 131070;

/// The greatest integer.
pub const GREATEST_INTEGER: u64 = 9223372036854775807;

/// How high a tree is at most.
pub const HIGHEST_TREE: u32 = 2000;

/// How many names one declaration has at most: the fields of a record; the parameters, locals and statics of a procedure.
pub const MOST_NAMES: u64 = 65535;

/// How many entries a table of a linked program has at most.
pub const MOST_ENTRIES: u64 = 16777216;

/// How many fields a code has at most, how many records, and how many fields one of them has.
pub const MOST_FIELDS: u64 = 65535;

/// How many parameters and other locals a procedure of a code has together at most, and how many statics.
pub const MOST_VARIABLES: u64 = 65535;

/// How many procedures a code has at most.
pub const MOST_PROCEDURES: u64 = 16777216;

/// How many statics all procedures of a code have together at most.
pub const MOST_STATICS: u64 = 4294967295;

/// The numbers of code are below this one: they have 32 bits.
pub const NUMBER_LIMIT: u64 = 4294967296;

/// How many instructions a linked program has at most.
pub const MOST_INSTRUCTIONS: u64 = 16777216;

/// How many bytes each of the two texts of a unit has at most.
pub const MOST_BYTES_OF_UCODE: u64 = 268435456;

/// The greatest number in ucode.
pub const GREATEST_NUMBER: u64 = 4294967295;

/// How many bytes an image has at most.
pub const MOST_BYTES_OF_IMAGE: u64 = 1073741824;

/// How many turns a run may be allowed, and how many it is where nothing is said.
pub const MOST_TURNS: u64 = 18446744073709551615;

/// How many bytes of strings a run may be allowed.
pub const MOST_STRINGS: u64 = 1099511627776;

/// How many bytes of strings a run is allowed where nothing is said.
pub const DEFAULT_STRINGS: u64 = 268435456;

/// How many cells of structures a run may be allowed.
pub const MOST_CELLS: u64 = 4294967295;

/// How many cells of structures a run is allowed where nothing is said.
pub const DEFAULT_CELLS: u64 = 16777216;

/// How many bytes a file has at most that a program opens to read it or to add to it.
pub const MOST_BYTES_OF_OPENED: u64 = 268435456;

/// How deep calls may be allowed to be.
pub const MOST_LEVELS: u64 = 4294967295;

/// How deep calls may be where nothing is said.
pub const DEFAULT_LEVELS: u64 = 20000;

/// The greatest number of a program that is made by its number.
pub const GREATEST_PROGRAM: u64 = 2000;
