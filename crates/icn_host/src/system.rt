// A file system: the few calls that are made of it.
ghost use Rattle.std.specs.Prelude.{◌≡◌, ℕ, List, [], Option, IfOk, IfSome, IsNone, OnOk, OnErr, take};
ghost use Rattle.std.specs.Io.{WritesAtMost};
ghost use Rattle.icn_host.specs.FileMaps.{FileMap, GrowsFile, MakesFile, MovesFile, NotHeld, SetsFile, TakesAway, TellsFile};

use std::fs::Permissions;
use std::io;
use std::io::Read;

/// What stands under a name.
#[derive(Drop)]
pub enum Standing {
    /// Nothing.
    Nothing,

    /// A file with these permissions, into which it may be written.
    Plain(Permissions),

    /// A link, a folder, a device, a pipe.
    Special,
}

/// The calls that `DiskFiles` makes of a file system. An `Err` is an error of the system, and nothing was
/// changed then.
pub trait FileSystem {
    /// A file that is read.
    type Reader: Read + Drop;

    /// A file that is written.
    type Writer: Drop;

    /// What each name holds, where the system tells it.
    ghost held: { Self → Option FileMap };

    /// The name under which a file that is written was opened.
    ghost opened: { Self.Writer → List ℕ };

    /// Opens a file to read it. `None` where no file has the name.
    fn open(&mut self, name: &str) -> io::Result<Option<Self::Reader>>
        ensures told { IfOk result (λ found. IfSome found
            (λ reader. TellsFile (held self.old) name.now (Self.Reader.remaining reader))) }
        ensures absent { IfOk result (λ found. IsNone found → NotHeld (held self.old) name.now) }
        ensures same { held self.new ≡ held self.old };

    /// What stands under a name. An `Err` where it is a file into which nothing may be written.
    fn look(&mut self, name: &str) -> io::Result<Standing>
        ensures same { held self.new ≡ held self.old };

    /// Makes an empty file under a name that none has, with these permissions or those of any new file, and opens it.
    fn make(&mut self, name: &str, permissions: Option<&Permissions>) -> io::Result<Self::Writer>
        ensures ok { OnOk result (MakesFile (held self.old) (held self.new) name.now) }
        ensures opened { IfSome (held self.old) (λ _. IfOk result (λ file. opened file ≡ name.now)) }
        ensures err { OnErr result (held self.new ≡ held self.old) };

    /// Makes a file empty, or a new one where none has the name, and opens it.
    fn clear(&mut self, name: &str) -> io::Result<Self::Writer>
        ensures ok { OnOk result (SetsFile (held self.old) (held self.new) name.now []) }
        ensures opened { IfSome (held self.old) (λ _. IfOk result (λ file. opened file ≡ name.now)) }
        ensures err { OnErr result (held self.new ≡ held self.old) };

    /// Appends a part of the piece from its start, and answers how many bytes.
    fn write(&mut self, file: &mut Self::Writer, piece: &[u8]) -> io::Result<usize>
        ensures bound { WritesAtMost result piece.now }
        ensures opened { opened file.new ≡ opened file.old }
        ensures ok { IfOk result
            (λ n. GrowsFile (held self.old) (held self.new) (opened file.old) (take n piece.now)) }
        ensures err { OnErr result (held self.new ≡ held self.old) };

    /// Gives the file of a name another name, at once. What had that name is gone.
    fn rename(&mut self, source: &str, target: &str) -> io::Result<()>
        ensures ok { OnOk result (MovesFile (held self.old) (held self.new) source.now target.now) }
        ensures err { OnErr result (held self.new ≡ held self.old) };

    /// Takes away a file that was made here.
    fn remove(&mut self, name: &str)
        ensures { TakesAway (held self.old) (held self.new) name.now };
}
