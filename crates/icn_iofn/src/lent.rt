// Objects of the outside that are lent.
ghost use Rattle.std.specs.Prelude.{◌≡◌};

use icn_host::{Fault, Files, LineEnd, ReadFailure, Sink, Source};
use std::marker::{Brand, PhantomData};

/// The loan of an object: a thing that a type can name.
pub trait Loan {
    ghost use Rattle.std.specs.Prelude.{ℕ};

    ghost loan: { ℕ };
}

impl Loan for Brand {
    ghost loan = { 0 };
}

/// A store of files that is lent, by a loan that is named.
#[derive(Drop)]
pub struct LentFiles<'a, F: Files, B: Loan> {
    pub files: &'a mut F,
    pub of: PhantomData<B>,
    ghost lent: { files.ghost_name ≡ B.loan },
}

impl<F: Files, B: Loan> Files for LentFiles<'_, F, B> {
    ghost state = { λ s. F.state s.files.now };

    fn read(&mut self, name: &str, most: u64, into: &mut Vec<u8>) -> Result<(), ReadFailure> {
        self.files.read(name, most, into)
    }

    fn write(&mut self, name: &str, bytes: &[u8]) -> Result<(), Fault> {
        self.files.write(name, bytes)
    }
}

/// An input that is lent. The loan is named, so that a call which may put another one in its place is known to have left this one.
#[derive(Drop)]
pub struct LentSource<'a, I: Source, B: Loan> {
    pub source: &'a mut I,
    pub of: PhantomData<B>,
    ghost lent: { source.ghost_name ≡ B.loan },
}

impl<I: Source, B: Loan> Source for LentSource<'_, I, B> {
    ghost left = { λ s. I.left s.source.now };

    ghost counts = { λ s. I.counts s.source.now };

    fn line(&mut self, into: &mut Vec<u8>) -> Result<LineEnd, Fault> {
        self.source.line(into)
    }

    fn take(&mut self, n: u64, into: &mut Vec<u8>) -> Result<u64, Fault> {
        self.source.take(n, into)
    }
}

/// An output that is lent, by a loan that is named.
#[derive(Drop)]
pub struct LentSink<'a, S: Sink, B: Loan> {
    pub sink: &'a mut S,
    pub of: PhantomData<B>,
    ghost lent: { sink.ghost_name ≡ B.loan },
}

impl<S: Sink, B: Loan> Sink for LentSink<'_, S, B> {
    ghost state = { λ s. S.state s.sink.now };

    ghost pending = { λ s. S.pending s.sink.now };

    fn put(&mut self, piece: &[u8]) -> Result<(), Fault> {
        self.sink.put(piece)
    }

    fn flush(&mut self) -> Result<(), Fault> {
        self.sink.flush()
    }
}
