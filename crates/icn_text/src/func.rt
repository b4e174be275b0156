// The built-in functions.
ghost use Rattle.std.specs.Prelude.{◌≡◌, ◌≢◌, IfSome, IfNone};
ghost use Rattle.icn_text.specs.Funcs.{func_number, func_name};
ghost use Rattle.icn_text.specs.declared.func.Func.{Func};

/// A built-in function.
#[derive(Clone, Copy, Debug, PartialEq, Eq)]
pub enum Func {
    Abs = 1,
    Any = 2,
    Bal = 3,
    Center = 4,
    Char = 5,
    Copy = 6,
    Cset = 7,
    Delete = 8,
    Exit = 9,
    Find = 10,
    Get = 11,
    Iand = 12,
    Icom = 13,
    Image = 14,
    Insert = 15,
    Integer = 16,
    Ior = 17,
    Ishift = 18,
    Ixor = 19,
    Key = 20,
    Left = 21,
    List = 22,
    Many = 23,
    Map = 24,
    Match = 25,
    Member = 26,
    Move = 27,
    Numeric = 28,
    Ord = 29,
    Pop = 30,
    Pos = 31,
    Pull = 32,
    Push = 33,
    Put = 34,
    Read = 35,
    Reads = 36,
    Repl = 37,
    Reverse = 38,
    Right = 39,
    Seq = 40,
    Set = 41,
    Sort = 42,
    Stop = 43,
    String = 44,
    Tab = 45,
    Table = 46,
    Trim = 47,
    TypeOf = 48,
    Upto = 49,
    Write = 50,
    Writes = 51,
    ErrorClear = 52,
    Open = 53,
    Close = 54,
    Proc = 55,
    Args = 56,
}

impl Func {
    /// All of them, in the order of their numbers.
    pub const ALL: [Func; 56] = [
        Func::Abs,
        Func::Any,
        Func::Bal,
        Func::Center,
        Func::Char,
        Func::Copy,
        Func::Cset,
        Func::Delete,
        Func::Exit,
        Func::Find,
        Func::Get,
        Func::Iand,
        Func::Icom,
        Func::Image,
        Func::Insert,
        Func::Integer,
        Func::Ior,
        Func::Ishift,
        Func::Ixor,
        Func::Key,
        Func::Left,
        Func::List,
        Func::Many,
        Func::Map,
        Func::Match,
        Func::Member,
        Func::Move,
        Func::Numeric,
        Func::Ord,
        Func::Pop,
        Func::Pos,
        Func::Pull,
        Func::Push,
        Func::Put,
        Func::Read,
        Func::Reads,
        Func::Repl,
        Func::Reverse,
        Func::Right,
        Func::Seq,
        Func::Set,
        Func::Sort,
        Func::Stop,
        Func::String,
        Func::Tab,
        Func::Table,
        Func::Trim,
        Func::TypeOf,
        Func::Upto,
        Func::Write,
        Func::Writes,
        Func::ErrorClear,
        Func::Open,
        Func::Close,
        Func::Proc,
        Func::Args,
    ];

    /// The number, from 1 to how many there are.
    pub fn number(self) -> u8
        ensures { result ≡ func_number self }
    {
        self as u8
    }

    /// The name by which a program calls it.
    pub fn name(self) -> &'static [u8]
        ensures { result.now ≡ func_name self }
    {
        match self {
            Func::Abs => b"abs",
            Func::Any => b"any",
            Func::Bal => b"bal",
            Func::Center => b"center",
            Func::Char => b"char",
            Func::Copy => b"copy",
            Func::Cset => b"cset",
            Func::Delete => b"delete",
            Func::Exit => b"exit",
            Func::Find => b"find",
            Func::Get => b"get",
            Func::Iand => b"iand",
            Func::Icom => b"icom",
            Func::Image => b"image",
            Func::Insert => b"insert",
            Func::Integer => b"integer",
            Func::Ior => b"ior",
            Func::Ishift => b"ishift",
            Func::Ixor => b"ixor",
            Func::Key => b"key",
            Func::Left => b"left",
            Func::List => b"list",
            Func::Many => b"many",
            Func::Map => b"map",
            Func::Match => b"match",
            Func::Member => b"member",
            Func::Move => b"move",
            Func::Numeric => b"numeric",
            Func::Ord => b"ord",
            Func::Pop => b"pop",
            Func::Pos => b"pos",
            Func::Pull => b"pull",
            Func::Push => b"push",
            Func::Put => b"put",
            Func::Read => b"read",
            Func::Reads => b"reads",
            Func::Repl => b"repl",
            Func::Reverse => b"reverse",
            Func::Right => b"right",
            Func::Seq => b"seq",
            Func::Set => b"set",
            Func::Sort => b"sort",
            Func::Stop => b"stop",
            Func::String => b"string",
            Func::Tab => b"tab",
            Func::Table => b"table",
            Func::Trim => b"trim",
            Func::TypeOf => b"type",
            Func::Upto => b"upto",
            Func::Write => b"write",
            Func::Writes => b"writes",
            Func::ErrorClear => b"errorclear",
            Func::Open => b"open",
            Func::Close => b"close",
            Func::Proc => b"proc",
            Func::Args => b"args",
        }
    }
}

/// The function of this name. It takes no memory.
pub fn func_named(name: &[u8]) -> Option<Func>
    ensures named { IfSome result (λ found. func_name found ≡ name.now) }
    ensures none { IfNone result ((any : Func) → func_name any ≢ name.now) }
{
    for found in &Func::ALL {
        if found.name() == name {
            return Some(*found);
        }
    }
    None
}
