// Writing files that are open to be written.
ghost use Rattle.std.specs.Prelude.{◌≡◌};
ghost use Rattle.icn_value.specs.Store.{Outside};
ghost use Rattle.icn_value.specs.declared.val.File.TheVariants.{Opened};
ghost use Rattle.icn_value.specs.declared.val.Val.TheVariants.{Std};
ghost use Rattle.icn_defs.specs.Interruptions.{TellsMap};
ghost use Rattle.icn_defs.specs.OpenFiles.{written_out};
ghost use Rattle.icn_defs.specs.Running.{files_written};
ghost use Rattle.icn_heap.specs.Heaps.{heap_of};
ghost use Rattle.icn_filefn.specs.WrittenFiles.{ComesToFiles, StoreCause};

use icn_heap::{FileEntry, Heap};
use icn_host::{Fault, Files};
use icn_streams::is_open_to_write;

/// Writes each file that is still open to be written, in the order in which they were opened. The first fault of the store ends it.
///
/// # Errors
///
/// `Failed` where the store failed, `NoMemory` where it wanted memory.
pub fn write_open_files<F: Files>(heap: &Heap, files: &mut F) -> Result<(), Fault>
    ensures written { (was : Outside) → TellsMap (F.state files.old).held was.files
        → ComesToFiles was (files_written (heap_of heap.now) was) (F.state files.old).held
        (F.state files.new).held result }
    ensures cause { StoreCause result (F.state files.old) (F.state files.new) }
{
    for number in 0..heap.opened() as u32 {
        write_out(heap.file(number), files)?;
    }
    Ok(())
}

/// Writes a file, if it is open to be written.
///
/// # Errors
///
/// `Failed` where the store failed, `NoMemory` where it wanted memory.
pub fn write_out<F: Files>(file: &FileEntry, files: &mut F) -> Result<(), Fault>
    ensures written { (was : Outside) → TellsMap (F.state files.old).held was.files
        → ComesToFiles was (written_out file.now was) (F.state files.old).held (F.state files.new).held
        result }
    ensures cause { StoreCause result (F.state files.old) (F.state files.new) }
{
    if !is_open_to_write(file) {
        return Ok(());
    }
    files.write(file.name(), file.content())
}
