// Opened files as a heap holds them, and one file among others that changes.
ghost use Rattle.std.specs.Prelude.{◌≡◌, ◌+◌, ◌<◌, ◌≤◌, ◌++◌, ◌∷◌, [], true, false, length, take, drop, IfOk, OnOk, OnErr, slice_set, slice_index_or, string_bytes};
ghost use Rattle.std.specs.Vec.{vec_len};
ghost use Rattle.icn_value.specs.Store.{no_file};
ghost use Rattle.icn_heap.specs.FileEntries.{opened_file};

use icn_value::FileMode;
use std::alloc::{AllocError, Global};
use std::marker::Model;

/// A file that the program opened. Its content is kept once; what is read of it is a place in it.
#[derive(Drop)]
pub struct FileEntry {
    name: String,
    mode: FileMode,
    content: Vec<u8>,
    place: u64,
    closed: bool,
}

impl Model for FileEntry {
    ghost use Rattle.std.specs.Prelude.{string_bytes};
    ghost use Rattle.icn_value.specs.Store.{OpenedFile};
    ghost use Rattle.icn_heap.specs.FileEntries.{opened_file};

    ghost Value = { OpenedFile };

    ghost view = { λ f. opened_file (string_bytes f.name) f.mode f.content.items f.place f.closed };
}

impl FileEntry {
    /// The name under which it was opened.
    pub fn name(&self) -> &str
        ensures { result.now ≡ self.now.name }
    {
        &self.name
    }

    /// How it was opened.
    pub fn mode(&self) -> FileMode
        ensures { result ≡ self.now.mode }
    {
        self.mode
    }

    /// What it holds: nothing once it is closed.
    pub fn content(&self) -> &[u8]
        ensures { result.now ≡ self.now.content }
    {
        &self.content
    }

    /// How many of its bytes were read.
    pub fn place(&self) -> u64
        ensures { result ≡ self.now.place }
    {
        self.place
    }

    /// Whether it was closed.
    pub fn is_closed(&self) -> bool
        ensures { result ≡ self.now.closed }
    {
        self.closed
    }

    // Has so many of its bytes read.
    fn read_to(&mut self, place: u64)
        ensures { self.new ≡ record self.old { place = place } }
    {
        self.place = place;
    }

    // Appends bytes. The error is want of memory, and it is as it was then.
    fn add(&mut self, bytes: &[u8]) -> Result<(), AllocError>
        ensures ok { OnOk result (self.new ≡ record self.old { content = self.old.content ++ bytes.now }) }
        ensures err { OnErr result (self.new ≡ self.old) }
    {
        self.content.extend_from_slice(bytes)
    }

    // Closes it, and lets go of what it holds.
    fn shut(&mut self, alloc: Global)
        ensures { self.new ≡ record self.old { content = []; place = 0; closed = true } }
    {
        self.content = Vec::new(alloc);
        self.place = 0;
        self.closed = true;
    }
}

/// Adds a file that is open and of which nothing is read yet. `AllocError` is want of memory, and all is as it was then.
pub fn add_file(
    files: &mut Vec<FileEntry>,
    name: String,
    mode: FileMode,
    content: Vec<u8>,
) -> Result<(), AllocError>
    ensures ok { OnOk result (files.new.items
        ≡ files.old.items ++ opened_file (string_bytes name) mode content.items 0 false ∷ []) }
    ensures err { OnErr result (files.new.items ≡ files.old.items) }
{
    let entry = FileEntry {
        name,
        mode,
        content,
        place: 0,
        closed: false,
    };
    files.push(entry)?;
    Ok(())
}

/// The opened file of this number.
pub fn file_ref(files: &Vec<FileEntry>, number: u32) -> &FileEntry
    requires { number < vec_len files.now }
    ensures { result.now ≡ slice_index_or files.now.items number no_file }
{
    &files[number as usize]
}

/// A part of what the opened file of this number holds, from a place on.
pub fn part_at(files: &Vec<FileEntry>, number: u32, from: u64, len: u64) -> &[u8]
    requires there { number < vec_len files.now }
    requires within { from + len ≤ length (slice_index_or files.now.items number no_file).content }
    ensures part { result.now
        ≡ take len (drop from (slice_index_or files.now.items number no_file).content) }
    ensures len { length result.now ≡ len }
{
    part_of(file_ref(files, number).content(), from, len)
}

// A part of bytes, from a place on.
fn part_of(bytes: &[u8], from: u64, len: u64) -> &[u8]
    requires { from + len ≤ length bytes.now }
    ensures part { result.now ≡ take len (drop from bytes.now) }
    ensures len { length result.now ≡ len }
{
    let from = from as usize;
    &bytes[from..from + len as usize]
}

/// Appends bytes to an opened file. `AllocError` is want of memory, and all is as it was then.
pub fn added_at(files: &mut Vec<FileEntry>, number: u32, bytes: &[u8]) -> Result<(), AllocError>
    requires { number < vec_len files.old }
    ensures ok { OnOk result (files.new.items ≡ slice_set files.old.items number
        (record (slice_index_or files.old.items number no_file) {
          content = (slice_index_or files.old.items number no_file).content ++ bytes.now;
        })) }
    ensures err { OnErr result (files.new.items ≡ files.old.items) }
{
    files[number as usize].add(bytes)
}

/// Has so many bytes of an opened file read.
pub fn read_at(files: &mut Vec<FileEntry>, number: u32, place: u64)
    requires { number < vec_len files.old }
    ensures { files.new.items ≡ slice_set files.old.items number
        (record (slice_index_or files.old.items number no_file) { place = place }) }
{
    files[number as usize].read_to(place);
}

/// Closes an opened file, which holds nothing then.
pub fn shut_at(alloc: Global, files: &mut Vec<FileEntry>, number: u32)
    requires { number < vec_len files.old }
    ensures { files.new.items ≡ slice_set files.old.items number
        (record (slice_index_or files.old.items number no_file) { content = []; place = 0; closed = true }) }
{
    files[number as usize].shut(alloc);
}
