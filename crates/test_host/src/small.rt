// A file system that takes so many bytes more, and perhaps makes no new file.
use icn_host::{FileSystem, Standing};
use std::io::ErrorKind;
use std::{fs, io};

/// A file system that takes so many bytes more, and refuses each new file where there is a refusal.
#[derive(Drop)]
pub struct SmallSystem<S> {
    pub system: S,
    pub room: usize,
    pub refusal: Option<ErrorKind>,
}

impl<S: FileSystem> FileSystem for SmallSystem<S> {
    type Reader = S::Reader;

    type Writer = S::Writer;

    ghost held = { λ s. S.held s.system };

    ghost opened = { S.opened };

    fn open(&mut self, name: &str) -> io::Result<Option<S::Reader>> {
        self.system.open(name)
    }

    fn look(&mut self, name: &str) -> io::Result<Standing> {
        self.system.look(name)
    }

    fn make(&mut self, name: &str, permissions: Option<&fs::Permissions>) -> io::Result<S::Writer> {
        match self.refusal {
            Some(kind) => Err(kind.into()),
            None => self.system.make(name, permissions),
        }
    }

    fn clear(&mut self, name: &str) -> io::Result<S::Writer> {
        self.system.clear(name)
    }

    fn write(&mut self, file: &mut S::Writer, piece: &[u8]) -> io::Result<usize> {
        if self.room == 0 {
            return Err(ErrorKind::StorageFull.into());
        }
        let count = self
            .system
            .write(file, &piece[..self.room.min(piece.len())])?;
        self.room = self.room.saturating_sub(count);
        Ok(count)
    }

    fn rename(&mut self, source: &str, target: &str) -> io::Result<()> {
        self.system.rename(source, target)
    }

    fn remove(&mut self, name: &str) {
        self.system.remove(name);
    }
}
