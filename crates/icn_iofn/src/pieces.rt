// The arguments of `write` as pieces.
ghost use Rattle.std.specs.Prelude.{◌≡◌, IfErr, map};
ghost use Rattle.std.specs.List.{All};
ghost use Rattle.icn_value.specs.Store.{Setting};
ghost use Rattle.icn_value.specs.declared.val.Val.TheVariants.{Std};
ghost use Rattle.icn_defs.specs.InputOutput.{pieces};
ghost use Rattle.icn_defs.specs.OpenFiles.{is_writable};
ghost use Rattle.icn_heap.specs.Extents.{IsLive, value_in};
ghost use Rattle.icn_heap.specs.Heaps.{extent_of, heap_of};
ghost use Rattle.icn_heap.specs.Keys.{file_of};
ghost use Rattle.icn_vars.specs.Stops.{IsLiveStop};
ghost use Rattle.icn_args.specs.RowWords.{IsFound};
ghost use Rattle.icn_iofn.specs.PutPieces.{piece_in, pieces_in};
ghost use Rattle.icn_iofn.specs.Checks.{one_piece};

use icn_heap::Heap;
use icn_streams::is_open_to_write;
use icn_value::{File, Val};
use icn_vars::Stop;

/// Whether each argument may stand in `write`. The errors are 109 about one that is neither a text nor a file nor null, and 213
/// about a file that is not open for writing, whichever comes first.
pub fn check_pieces(heap: &Heap, vals: &[Val]) -> Result<(), Stop>
    requires { All (IsLive (extent_of heap.now)) vals.now }
    ensures found { (setting : Setting) → IsFound (extent_of heap.now)
        (pieces (heap_of heap.now) (map (value_in (extent_of heap.now)) vals.now))
        setting setting (λ done. pieces_in (map (value_in (extent_of heap.now)) vals.now)) result }
    ensures stops { IfErr result (IsLiveStop (extent_of heap.now)) }
{
    let mut rest = vals;
    while let Some((first, others)) = rest.split_first() {
        check_piece(heap, *first)?;
        rest = others;
    }
    Ok(())
}

// Whether an argument may stand in `write`.
fn check_piece(heap: &Heap, val: Val) -> Result<(), Stop>
    requires { IsLive (extent_of heap.now) val }
    ensures found { (setting : Setting) → IsFound (extent_of heap.now)
        (one_piece (heap_of heap.now) (value_in (extent_of heap.now) val)) setting setting
        (λ done. piece_in (value_in (extent_of heap.now) val)) result }
    ensures stops { IfErr result (IsLiveStop (extent_of heap.now)) }
{
    match val {
        Val::Null | Val::Integer(_) | Val::Text(_) | Val::Chars(_) => Ok(()),
        Val::Std(file) => check_file(heap, file),
        _ => Err(Stop::Error(109, Some(val))),
    }
}

// Whether a file may stand in `write`.
fn check_file(heap: &Heap, file: File) -> Result<(), Stop>
    requires { IsLive (extent_of heap.now) (Std file) }
    ensures found { (setting : Setting) → IsFound (extent_of heap.now)
        (one_piece (heap_of heap.now) (value_in (extent_of heap.now) (Std file))) setting setting
        (λ done. piece_in (value_in (extent_of heap.now) (Std file))) result }
    ensures stops { IfErr result (IsLiveStop (extent_of heap.now)) }
{
    if is_writable(heap, file) {
        Ok(())
    } else {
        Err(Stop::Error(213, Some(Val::Std(file))))
    }
}

// Whether a file is open for writing.
fn is_writable(heap: &Heap, file: File) -> bool
    requires { IsLive (extent_of heap.now) (Std file) }
    ensures { result ≡ is_writable (heap_of heap.now) (file_of file) }
{
    match file {
        File::Input => false,
        File::Output | File::Errout => true,
        File::Opened(number) => is_open_to_write(heap.file(number)),
    }
}
