// The rows that read and put, over what a run is handed.
ghost use Rattle.std.specs.Prelude.{◌≡◌, map, ℕ};
ghost use Rattle.std.specs.List.{All};
ghost use Rattle.icn_value.specs.declared.val.File.TheVariants.{Input};
ghost use Rattle.icn_value.specs.declared.val.Val.TheVariants.{Std};
ghost use Rattle.icn_defs.specs.Files as file_rows;
ghost use Rattle.icn_defs.specs.InputOutput as rows;
ghost use Rattle.icn_defs.specs.Lines as line_rows;
ghost use Rattle.icn_heap.specs.Extents.{IsLive, value_in};
ghost use Rattle.icn_heap.specs.Heaps.{extent_of};
ghost use Rattle.icn_heap.specs.Keys.{file_of};
ghost use Rattle.icn_vars.specs.Outcomes.{answer_of};
ghost use Rattle.icn_streams.specs.Answers.{call_state};
ghost use Rattle.icn_streams.specs.Applies.{Applies};
ghost use Rattle.icn_streams.specs.Handed.{CallStreams};
ghost use Rattle.icn_streams.specs.Settling.{IsSettled, IsSettledWhereRead, ReadsInput};

use icn_value::{File, Val};
use icn_vars::{Halt, Locals, Outcome, ValueOutcome, World};

/// What a run is handed, in one object, with the rows that read from it and put to it. Each row checks its arguments, which are
/// values, and settles both outputs before it reads the input or calls the store of files.
///
/// # Errors
///
/// Of each row `Error` and `Ends` where the row says so; `ReadFault` where the input failed in this call, `WriteFault` where an output
/// did, `FileFault` where the store of files did, `NoMemory` where memory ran out.
pub trait Streams {
    /// What the files, the input and both outputs tell of what they hold, and how often they have failed.
    ghost state: { Self → CallStreams };

    /// How much the output keeps of what it accepted, and how much the error output.
    ghost pending_output: { Self → ℕ };

    ghost pending_errors: { Self → ℕ };

    /// `read(f)`: the next line. It fails at the end of the input.
    fn read<L: Locals>(&mut self, vals: &[Val], w: &mut World, l: &L) -> Result<ValueOutcome, Halt>
        requires locals { All (IsLive (extent_of w.old.heap)) (L.items l.now) }
        requires live { All (IsLive (extent_of w.old.heap)) vals.now }
        ensures row { Applies (rows.read_row (map (value_in (extent_of w.old.heap)) vals.now))
            (call_state w.old (L.items l.now) (state self.old))
            (call_state w.new (L.items l.now) (state self.new)) (answer_of result) }
        ensures settled { ReadsInput (map (value_in (extent_of w.old.heap)) vals.now)
            → IsSettledWhereRead result (pending_output self.new) (pending_errors self.new) };

    /// `reads(f, i)`: the next bytes, one or so many, or all where fewer are left. It fails at the end of the input.
    fn reads<L: Locals>(&mut self, vals: &[Val], w: &mut World, l: &L) -> Result<ValueOutcome, Halt>
        requires locals { All (IsLive (extent_of w.old.heap)) (L.items l.now) }
        requires live { All (IsLive (extent_of w.old.heap)) vals.now }
        ensures row { Applies (rows.reads_row (map (value_in (extent_of w.old.heap)) vals.now))
            (call_state w.old (L.items l.now) (state self.old))
            (call_state w.new (L.items l.now) (state self.new)) (answer_of result) }
        ensures settled { ReadsInput (map (value_in (extent_of w.old.heap)) vals.now)
            → IsSettledWhereRead result (pending_output self.new) (pending_errors self.new) };

    /// `write(x, ..)`: puts its arguments as a line, and gives the last of them.
    fn write<L: Locals>(&mut self, vals: &[Val], w: &mut World, l: &L) -> Result<ValueOutcome, Halt>
        requires locals { All (IsLive (extent_of w.old.heap)) (L.items l.now) }
        requires live { All (IsLive (extent_of w.old.heap)) vals.now }
        ensures row { Applies (rows.write_row (map (value_in (extent_of w.old.heap)) vals.now))
            (call_state w.old (L.items l.now) (state self.old))
            (call_state w.new (L.items l.now) (state self.new)) (answer_of result) };

    /// `writes(x, ..)`: puts its arguments, and gives the last of them.
    fn writes<L: Locals>(
        &mut self,
        vals: &[Val],
        w: &mut World,
        l: &L,
    ) -> Result<ValueOutcome, Halt>
        requires locals { All (IsLive (extent_of w.old.heap)) (L.items l.now) }
        requires live { All (IsLive (extent_of w.old.heap)) vals.now }
        ensures row { Applies (rows.writes_row (map (value_in (extent_of w.old.heap)) vals.now))
            (call_state w.old (L.items l.now) (state self.old))
            (call_state w.new (L.items l.now) (state self.new)) (answer_of result) };

    /// `stop(x, ..)`: puts its arguments as a line, from the error output on, and ends the program with status 1.
    fn stop<L: Locals>(&mut self, vals: &[Val], w: &mut World, l: &L) -> Result<ValueOutcome, Halt>
        requires locals { All (IsLive (extent_of w.old.heap)) (L.items l.now) }
        requires live { All (IsLive (extent_of w.old.heap)) vals.now }
        ensures row { Applies (rows.stop_row (map (value_in (extent_of w.old.heap)) vals.now))
            (call_state w.old (L.items l.now) (state self.old))
            (call_state w.new (L.items l.now) (state self.new)) (answer_of result) };

    /// `!f`: the next line of a file, and then the others. It fails at the end of the file.
    fn lines<L: Locals>(&mut self, file: File, w: &mut World, l: &L) -> Result<Outcome, Halt>
        requires locals { All (IsLive (extent_of w.old.heap)) (L.items l.now) }
        requires live { IsLive (extent_of w.old.heap) (Std file) }
        ensures row { Applies (line_rows.lines_row (file_of file))
            (call_state w.old (L.items l.now) (state self.old))
            (call_state w.new (L.items l.now) (state self.new)) result }
        ensures settled { file ≡ Input
            → IsSettled result (pending_output self.new) (pending_errors self.new) };

    /// `open(s1, s2)`: the file of a name, opened in a mode. It fails where there is none, or too much to be read.
    fn open_file<L: Locals>(
        &mut self,
        vals: &[Val],
        w: &mut World,
        l: &L,
    ) -> Result<ValueOutcome, Halt>
        requires locals { All (IsLive (extent_of w.old.heap)) (L.items l.now) }
        requires live { All (IsLive (extent_of w.old.heap)) vals.now }
        ensures row { Applies (file_rows.open_row (map (value_in (extent_of w.old.heap)) vals.now))
            (call_state w.old (L.items l.now) (state self.old))
            (call_state w.new (L.items l.now) (state self.new)) (answer_of result) };

    /// `close(f)`: what an opened file was written is written to the store, and it is let go.
    fn close_file<L: Locals>(
        &mut self,
        vals: &[Val],
        w: &mut World,
        l: &L,
    ) -> Result<ValueOutcome, Halt>
        requires locals { All (IsLive (extent_of w.old.heap)) (L.items l.now) }
        requires live { All (IsLive (extent_of w.old.heap)) vals.now }
        ensures row { Applies (file_rows.close_row (map (value_in (extent_of w.old.heap)) vals.now))
            (call_state w.old (L.items l.now) (state self.old))
            (call_state w.new (L.items l.now) (state self.new)) (answer_of result) };
}
