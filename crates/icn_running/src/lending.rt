// A run over streams that are lent together.
ghost use Rattle.std.specs.Prelude.{◌≡◌, IfErr, IfOk, false};
ghost use Rattle.icn_code.specs.CodeTables.{tables_of};
ghost use Rattle.icn_vars.specs.Outcomes.{IsLiveHalt};
ghost use Rattle.icn_streams.specs.Handed.{call_streams};
ghost use Rattle.icn_control.specs.Machines.{world_reach};
ghost use Rattle.icn_control.specs.declared.machine.RunState.TheVariants as RunStates;
ghost use Rattle.icn_machine.specs.Stepping.{Advances, IsAny, IsReady};
ghost use Rattle.icn_machine.specs.AfterInstruction.{stage_result};
ghost use Rattle.icn_running.specs.WorkLeft.{Lasts};
ghost use Rattle.icn_running.specs.DueInstructions.{is_on};

use crate::running::run_on;
use icn_control::Machine;
use icn_frames::{Cell, Stack};
use icn_host::{Files, Sink, Source};
use icn_iofn::{HeldStreams, LentFiles, LentSink, LentSource, Loan};
use icn_machine::{AfterStep, Rooms};
use icn_vars::Halt;
use icn_verify::Verified;
use std::alloc::Global;
use std::marker::{Brand, PhantomData};

/// Does instructions until the run stops, over these streams. The rooms of the instructions are made here. The errors are those of
/// `step`.
pub fn run_over<K: Stack<Cell> + Drop, F: Files, I: Source, O: Sink, E: Sink>(
    alloc: Global,
    m: &mut Machine<K>,
    code: &Verified,
    files: &mut F,
    input: &mut I,
    out: &mut O,
    err: &mut E,
) -> Result<AfterStep, Halt>
    requires ready { IsReady (tables_of code.now.code) m.old RunStates.Running }
    requires lasts { Lasts (tables_of code.now.code) m.old }
    ensures steps { Advances IsAny (tables_of code.now.code) m.old RunStates.Running
        (call_streams (F.state files.old) (I.left input.old) (I.counts input.old) (O.state out.old)
        (E.state err.old)) m.new
        (call_streams (F.state files.new) (I.left input.new) (I.counts input.new) (O.state out.new)
        (E.state err.new)) (stage_result result) }
    ensures stops { IfOk result (λ stepped. is_on stepped ≡ false) }
    ensures halt { IfErr result (IsLiveHalt (world_reach m.new)) }
    ensures limits { m.new.limits ≡ m.old.limits }
{
    let (stopped, ..) = run_lent::<K, Brand, Brand, Brand, Brand, F, I, O, E>(
        alloc, m, code, files, input, out, err,
    );
    stopped
}

// The same over streams that are lent by name, which are handed back.
fn run_lent<
    'a,
    K: Stack<Cell> + Drop,
    A: Loan,
    B: Loan,
    C: Loan,
    D: Loan,
    F: Files,
    I: Source,
    O: Sink,
    E: Sink,
>(
    alloc: Global,
    m: &mut Machine<K>,
    code: &Verified,
    files: &'a mut F,
    input: &'a mut I,
    out: &'a mut O,
    err: &'a mut E,
) -> (
    Result<AfterStep, Halt>,
    &'a mut F,
    &'a mut I,
    &'a mut O,
    &'a mut E,
)
    requires files_lent { files.ghost_name ≡ A.loan }
    requires input_lent { input.ghost_name ≡ B.loan }
    requires output_lent { out.ghost_name ≡ C.loan }
    requires errors_lent { err.ghost_name ≡ D.loan }
    requires ready { IsReady (tables_of code.now.code) m.old RunStates.Running }
    requires lasts { Lasts (tables_of code.now.code) m.old }
    ensures same_files { result.1.ghost_name ≡ files.entry.ghost_name }
    ensures same_input { result.2.ghost_name ≡ input.entry.ghost_name }
    ensures same_output { result.3.ghost_name ≡ out.entry.ghost_name }
    ensures same_errors { result.4.ghost_name ≡ err.entry.ghost_name }
    ensures steps { Advances IsAny (tables_of code.now.code) m.old RunStates.Running
        (call_streams (F.state files.old) (I.left input.old) (I.counts input.old) (O.state out.old)
        (E.state err.old)) m.new
        (call_streams (F.state result.1.now) (I.left result.2.now) (I.counts result.2.now)
        (O.state result.3.now) (E.state result.4.now)) (stage_result result.0) }
    ensures stops { IfOk result.0 (λ stepped. is_on stepped ≡ false) }
    ensures halt { IfErr result.0 (IsLiveHalt (world_reach m.new)) }
    ensures limits { m.new.limits ≡ m.old.limits }
{
    let mut rooms = Rooms {
        items: Vec::new(alloc),
        vals: Vec::new(alloc),
    };
    let files: LentFiles<F, A> = LentFiles {
        files,
        of: PhantomData,
    };
    let input: LentSource<I, B> = LentSource {
        source: input,
        of: PhantomData,
    };
    let output: LentSink<O, C> = LentSink {
        sink: out,
        of: PhantomData,
    };
    let errors: LentSink<E, D> = LentSink {
        sink: err,
        of: PhantomData,
    };
    let mut streams = HeldStreams {
        files,
        input,
        output,
        errors,
        buffer: Vec::new(alloc),
    };
    let stopped = run_on(m, code, &mut rooms, &mut streams);
    let files = streams.files;
    let input = streams.input;
    let output = streams.output;
    let errors = streams.errors;
    (stopped, files.files, input.source, output.sink, errors.sink)
}
