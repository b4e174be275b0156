// The streams of a run in one object.
ghost use Rattle.icn_streams.specs.Handed.{call_streams};

use crate::reads::{read, reads};
use crate::writes::{stop, write, writes};
use icn_filefn::{close_row, open_row};
use icn_host::{Files, Sink, Source};
use icn_streams::{Streams, lines_row};
use icn_value::{File, Val};
use icn_vars::{Halt, Locals, Outcome, ValueOutcome, World};

/// A store of files, an input, an output and an error output, with room for the bytes at hand; what stands in the room does not
/// matter.
#[derive(Drop)]
pub struct HeldStreams<F: Files, I: Source, O: Sink, E: Sink> {
    pub files: F,
    pub input: I,
    pub output: O,
    pub errors: E,
    pub buffer: Vec<u8>,
}

impl<F: Files, I: Source, O: Sink, E: Sink> Streams for HeldStreams<F, I, O, E> {
    ghost state = { λ s. call_streams (F.state s.files) (I.left s.input) (I.counts s.input)
        (O.state s.output) (E.state s.errors) };

    ghost pending_output = { λ s. O.pending s.output };

    ghost pending_errors = { λ s. E.pending s.errors };

    fn read<L: Locals>(
        &mut self,
        vals: &[Val],
        w: &mut World,
        l: &L,
    ) -> Result<ValueOutcome, Halt> {
        read(
            vals,
            w,
            l,
            &mut self.buffer,
            &mut self.input,
            &mut self.output,
            &mut self.errors,
        )
    }

    fn reads<L: Locals>(
        &mut self,
        vals: &[Val],
        w: &mut World,
        l: &L,
    ) -> Result<ValueOutcome, Halt> {
        reads(
            vals,
            w,
            l,
            &mut self.buffer,
            &mut self.input,
            &mut self.output,
            &mut self.errors,
        )
    }

    fn write<L: Locals>(
        &mut self,
        vals: &[Val],
        w: &mut World,
        l: &L,
    ) -> Result<ValueOutcome, Halt> {
        write(
            vals,
            w,
            l,
            &mut self.buffer,
            &mut self.output,
            &mut self.errors,
        )
    }

    fn writes<L: Locals>(
        &mut self,
        vals: &[Val],
        w: &mut World,
        l: &L,
    ) -> Result<ValueOutcome, Halt> {
        writes(
            vals,
            w,
            l,
            &mut self.buffer,
            &mut self.output,
            &mut self.errors,
        )
    }

    fn stop<L: Locals>(
        &mut self,
        vals: &[Val],
        w: &mut World,
        l: &L,
    ) -> Result<ValueOutcome, Halt> {
        stop(
            vals,
            w,
            l,
            &mut self.buffer,
            &mut self.output,
            &mut self.errors,
        )
    }

    fn lines<L: Locals>(&mut self, file: File, w: &mut World, l: &L) -> Result<Outcome, Halt> {
        lines_row(
            file,
            w,
            l,
            &mut self.buffer,
            &mut self.input,
            &mut self.output,
            &mut self.errors,
        )
    }

    fn open_file<L: Locals>(
        &mut self,
        vals: &[Val],
        w: &mut World,
        l: &L,
    ) -> Result<ValueOutcome, Halt> {
        open_row(
            vals,
            w,
            l,
            &mut self.files,
            &mut self.output,
            &mut self.errors,
        )
    }

    fn close_file<L: Locals>(
        &mut self,
        vals: &[Val],
        w: &mut World,
        l: &L,
    ) -> Result<ValueOutcome, Halt> {
        close_row(
            vals,
            w,
            l,
            &mut self.files,
            &mut self.output,
            &mut self.errors,
        )
    }
}
