// The file system that a runtime reaches.
ghost use Rattle.std.specs.Prelude.{[], None};

use crate::system::{FileSystem, Standing};
use std::fs::{OpenFile, OpenOptions, Permissions};
use std::io::{ErrorKind, Write};
use std::os::unix::fs::{OpenOptionsExt, PermissionsExt};
use std::{io, rt};

// Who may read, write and run a file.
const PERMISSION_BITS: u32 = 0o777;

/// The file system that a runtime reaches. It doesn't tell what it holds.
#[derive(Drop)]
pub struct RuntimeFiles<R> {
    rt: R,
}

impl<R: rt::Files> RuntimeFiles<R> {
    /// The files that this runtime reaches.
    pub fn new(rt: R) -> Self {
        RuntimeFiles { rt }
    }
}

// Nothing is there, or the system can hold no file under the name: it names a folder, a folder on its way is none, it is too
// long, or it has a byte 0; or what is there may not be opened.
fn names_no_file(kind: ErrorKind) -> bool {
    matches!(
        kind,
        ErrorKind::NotFound
            | ErrorKind::NotADirectory
            | ErrorKind::InvalidFilename
            | ErrorKind::InvalidInput
            | ErrorKind::PermissionDenied
    )
}

impl<R: rt::Files> FileSystem for RuntimeFiles<R> {
    type Reader = R::File;

    type Writer = R::File;

    ghost held = { λ _. None };

    ghost opened = { λ _. [] };

    fn open(&mut self, name: &str) -> io::Result<Option<R::File>> {
        match OpenOptions::new().read(true).open(&self.rt, name) {
            Ok(file) if file.metadata()?.is_dir() => Ok(None),
            Ok(file) => Ok(Some(file)),
            Err(e) if names_no_file(e.kind()) => Ok(None),
            Err(e) => Err(e),
        }
    }

    fn look(&mut self, name: &str) -> io::Result<Standing> {
        match self.rt.symlink_metadata(name) {
            Ok(metadata) if metadata.is_file() => {
                OpenOptions::new().write(true).open(&self.rt, name)?;
                Ok(Standing::Plain(metadata.permissions()))
            }
            Ok(_) => Ok(Standing::Special),
            Err(e) if e.kind() == ErrorKind::NotFound => Ok(Standing::Nothing),
            Err(e) => Err(e),
        }
    }

    fn make(&mut self, name: &str, permissions: Option<&Permissions>) -> io::Result<R::File> {
        let mut options = OpenOptions::new();
        options.write(true).create_new(true);
        let Some(permissions) = permissions else {
            return options.open(&self.rt, name);
        };
        let mode = permissions.mode() & PERMISSION_BITS;
        let file = options.mode(mode).open(&self.rt, name)?;
        // What the mask for new files takes away is given back, where the system has permissions.
        let _ = file.set_permissions(Permissions::from_mode(mode));
        Ok(file)
    }

    fn clear(&mut self, name: &str) -> io::Result<R::File> {
        let mut options = OpenOptions::new();
        options.write(true).create(true).truncate(true);
        options.open(&self.rt, name)
    }

    fn write(&mut self, file: &mut R::File, piece: &[u8]) -> io::Result<usize> {
        file.write(piece)
    }

    fn rename(&mut self, source: &str, target: &str) -> io::Result<()> {
        self.rt.rename(source, target)
    }

    fn remove(&mut self, name: &str) {
        let _ = self.rt.remove_file(name);
    }
}
