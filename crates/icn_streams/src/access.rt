// What a file is read from, and whether it may be written to.
ghost use Rattle.std.specs.Prelude.{◌≡◌, IfSome, true};
ghost use Rattle.std.specs.Option.{option_map};
ghost use Rattle.icn_value.specs.Store.{OpenedFile};
ghost use Rattle.icn_value.specs.declared.val.File.TheVariants.{Opened};
ghost use Rattle.icn_value.specs.declared.val.Val.TheVariants.{Std};
ghost use Rattle.icn_defs.specs.OpenFiles.{is_open_to_read, is_open_to_write, readable_of};
ghost use Rattle.icn_heap.specs.Extents.{IsLive};
ghost use Rattle.icn_heap.specs.Heaps.{extent_of, heap_of};
ghost use Rattle.icn_heap.specs.Keys.{file_of};
ghost use Rattle.icn_streams.specs.Readings.{IsOpenFrom, readable_in};

use icn_heap::{FileEntry, Heap};
use icn_value::{File, FileMode};

/// What a reading is of.
#[derive(Clone, Copy, Debug, PartialEq, Eq)]
pub enum ReadFrom {
    /// The input.
    Input,
    /// A file that the program opened, by its number.
    Opened(u32),
}

/// What a reading of a file is of, if it is open for reading.
pub fn readable(heap: &Heap, file: File) -> Option<ReadFrom>
    requires { IsLive (extent_of heap.now) (Std file) }
    ensures found { option_map readable_in result ≡ readable_of (heap_of heap.now) (file_of file) }
    ensures live { IfSome result (IsOpenFrom (extent_of heap.now)) }
{
    match file {
        File::Input => Some(ReadFrom::Input),
        File::Output | File::Errout => None,
        File::Opened(number) => {
            if is_open_to_read(heap.file(number)) {
                Some(ReadFrom::Opened(number))
            } else {
                None
            }
        }
    }
}

// Whether an opened file may be read.
fn is_open_to_read(file: &FileEntry) -> bool
    ensures { result ≡ is_open_to_read file.now }
{
    file.mode() == FileMode::ToRead && !file.is_closed()
}

/// Whether an opened file may be written to.
pub fn is_open_to_write(file: &FileEntry) -> bool
    ensures { result ≡ is_open_to_write file.now }
{
    file.mode() != FileMode::ToRead && !file.is_closed()
}
