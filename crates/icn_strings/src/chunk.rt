// Bytes that lie together.
ghost use Rattle.std.specs.Prelude.{◌≡◌, ◌+◌, ◌-◌, ◌*◌, ◌<◌, ◌≤◌, ◌++◌, ℕ, true, length, take, drop, map, replicate, reverse, slice_index};
ghost use Rattle.icn_strings.specs.Parts.{holds, end_of};
ghost use Rattle.icn_strings.specs.Chunks.{part_of_chunk, HasRoom};
ghost use Rattle.icn_strings.specs.RepeatedBytes.{copies};

use crate::byte_range::ByteRange;

// So few bytes are copied one by one, which takes less than a call.
const FEW: usize = 16;

/// Some of the bytes of a region, which lie together. It has a room, past which it never grows.
#[derive(Drop)]
pub struct Chunk {
    /// Where its first byte lies among all bytes of the region.
    pub first: u64,
    pub bytes: Vec<u8>,
}

impl Chunk {
    /// Whether a range lies in it.
    pub fn holds(&self, range: ByteRange) -> bool
        ensures { result ≡ holds range (part_of_chunk self.now) }
    {
        let len = self.bytes.len() as u64;
        self.first <= range.start && range.len <= len && range.start - self.first <= len - range.len
    }

    /// Whether a range lies in it and ends where it does.
    pub fn ends_with(&self, range: ByteRange) -> bool
        ensures from { result ≡ true → self.now.first ≤ range.start }
        ensures to { result ≡ true → range.start + range.len ≡ end_of (part_of_chunk self.now) }
    {
        let len = self.bytes.len() as u64;
        self.first <= range.start && range.len <= len && range.start - self.first == len - range.len
    }

    /// Whether two ranges lie in it, the second right behind the first.
    pub fn has_both(&self, a: ByteRange, b: ByteRange) -> bool
        ensures from { result ≡ true → self.now.first ≤ a.start }
        ensures next { result ≡ true → a.start + a.len ≡ b.start }
        ensures to { result ≡ true → b.start + b.len ≤ end_of (part_of_chunk self.now) }
    {
        self.holds(a) && self.holds(b) && a.start <= b.start && b.start - a.start == a.len
    }

    /// Whether it has room for so many bytes more.
    pub fn has_room(&self, count: u64) -> bool
        ensures { result ≡ true → HasRoom self.now count }
    {
        count <= (self.bytes.capacity() - self.bytes.len()) as u64
    }

    /// The bytes of a range that lies in it.
    pub fn part(&self, range: ByteRange) -> &[u8]
        requires { holds range (part_of_chunk self.now) ≡ true }
        ensures { result.now ≡ take range.len (drop (range.start - self.now.first) self.now.bytes.items) }
    {
        let from = (range.start - self.first) as usize;
        &self.bytes[from..from + range.len as usize]
    }

    /// Adds these bytes, for which there is room.
    pub fn add(&mut self, bytes: &[u8])
        requires { HasRoom self.old (length bytes.now) }
        ensures first { self.new.first ≡ self.old.first }
        ensures bytes { self.new.bytes.items ≡ self.old.bytes.items ++ bytes.now }
        ensures room { (count : ℕ) → HasRoom self.old (length bytes.now + count) → HasRoom self.new count }
    {
        self.bytes.extend_from_slice(bytes).unwrap();
    }

    /// Adds a byte so many times, for which there is room.
    pub fn fill(&mut self, byte: u8, count: u64)
        requires { HasRoom self.old count }
        ensures first { self.new.first ≡ self.old.first }
        ensures bytes { self.new.bytes.items ≡ self.old.bytes.items ++ replicate count byte }
        ensures room { (more : ℕ) → HasRoom self.old (count + more) → HasRoom self.new more }
    {
        let end = self.bytes.len() + count as usize;
        self.bytes.resize(end, byte).unwrap();
    }

    /// Adds the bytes of a range that lies in it once more, for which there is room.
    pub fn add_part(&mut self, range: ByteRange)
        requires holds { holds range (part_of_chunk self.old) ≡ true }
        requires room { HasRoom self.old range.len }
        ensures first { self.new.first ≡ self.old.first }
        ensures bytes { self.new.bytes.items ≡ self.old.bytes.items
            ++ take range.len (drop (range.start - self.old.first) self.old.bytes.items) }
        ensures room { (count : ℕ) → HasRoom self.old (range.len + count) → HasRoom self.new count }
    {
        self.add_again((range.start - self.first) as usize, range.len as usize);
    }

    // Adds some of its bytes once more, for which there is room.
    fn add_again(&mut self, from: usize, len: usize)
        requires within { from + len ≤ length self.old.bytes.items }
        requires room { HasRoom self.old len }
        ensures first { self.new.first ≡ self.old.first }
        ensures bytes { self.new.bytes.items ≡ self.old.bytes.items ++ take len (drop from self.old.bytes.items) }
        ensures room { (count : ℕ) → HasRoom self.old (len + count) → HasRoom self.new count }
    {
        if len < FEW {
            self.add_one_by_one(from, len);
            return;
        }
        self.add_at_once(from, len);
    }

    // Adds some of its bytes once more, for which there is room, one after the other.
    fn add_one_by_one(&mut self, from: usize, len: usize)
        requires within { from + len ≤ length self.old.bytes.items }
        requires room { HasRoom self.old len }
        ensures first { self.new.first ≡ self.old.first }
        ensures bytes { self.new.bytes.items ≡ self.old.bytes.items ++ take len (drop from self.old.bytes.items) }
        ensures room { (count : ℕ) → HasRoom self.old (len + count) → HasRoom self.new count }
    {
        self.bytes.extend_from_within(from..from + len).unwrap();
    }

    // Adds some of its bytes once more, for which there is room, all together.
    fn add_at_once(&mut self, from: usize, len: usize)
        requires within { from + len ≤ length self.old.bytes.items }
        requires room { HasRoom self.old len }
        ensures first { self.new.first ≡ self.old.first }
        ensures bytes { self.new.bytes.items ≡ self.old.bytes.items ++ take len (drop from self.old.bytes.items) }
        ensures room { (count : ℕ) → HasRoom self.old (len + count) → HasRoom self.new count }
    {
        let end = self.bytes.len();
        self.fill(0, len as u64);
        copy_down(&mut self.bytes, from, end);
    }

    /// Repeats the bytes behind the first so many, until they stand there so many times.
    pub fn repeat_behind(&mut self, kept: usize, count: u64)
        requires kept { kept ≤ length self.old.bytes.items }
        requires some { 0 < count }
        requires room { HasRoom self.old ((count - 1) * (length self.old.bytes.items - kept)) }
        ensures first { self.new.first ≡ self.old.first }
        ensures bytes { self.new.bytes.items
            ≡ take kept self.old.bytes.items ++ copies count (drop kept self.old.bytes.items) }
        ensures room { (more : ℕ) → HasRoom self.old ((count - 1) * (length self.old.bytes.items - kept) + more)
            → HasRoom self.new more }
    {
        let unit = self.bytes.len() - kept;
        let mut done = 1;
        while done < count {
            let more = done.min(count - done);
            let extra = more as usize * unit;
            self.add_again(kept, extra);
            done += more;
        }
    }

    /// Turns the bytes behind the first so many round.
    pub fn reverse_behind(&mut self, kept: usize)
        requires { kept ≤ length self.old.bytes.items }
        ensures first { self.new.first ≡ self.old.first }
        ensures bytes { self.new.bytes.items
            ≡ take kept self.old.bytes.items ++ reverse (drop kept self.old.bytes.items) }
        ensures room { (count : ℕ) → HasRoom self.old count → HasRoom self.new count }
    {
        reverse_end(&mut self.bytes, kept);
    }

    /// Puts images in place of the bytes behind the first so many.
    pub fn map_behind(&mut self, kept: usize, images: &[u8; 256])
        requires { kept ≤ length self.old.bytes.items }
        ensures first { self.new.first ≡ self.old.first }
        ensures bytes { self.new.bytes.items ≡ take kept self.old.bytes.items
            ++ map (slice_index images.now) (drop kept self.old.bytes.items) }
        ensures room { (count : ℕ) → HasRoom self.old count → HasRoom self.new count }
    {
        map_end(&mut self.bytes, kept, images);
    }
}

// Copies bytes that lie before `end` over those from there on.
fn copy_down(bytes: &mut [u8], from: usize, end: usize)
    requires within { from + (length bytes.old - end) ≤ end }
    requires end { end ≤ length bytes.old }
    ensures bytes { bytes.new
        ≡ take end bytes.old ++ take (length bytes.old - end) (drop from (take end bytes.old)) }
    ensures len { length bytes.new ≡ length bytes.old }
{
    let (front, back) = bytes.split_at_mut(end);
    let to = from + back.len();
    back.copy_from_slice(&front[from..to]);
}

// Turns the bytes behind the first so many round.
fn reverse_end(bytes: &mut [u8], kept: usize)
    requires { kept ≤ length bytes.old }
    ensures bytes { bytes.new ≡ take kept bytes.old ++ reverse (drop kept bytes.old) }
    ensures len { length bytes.new ≡ length bytes.old }
{
    bytes[kept..].reverse();
}

// Puts images in place of the bytes behind the first so many.
fn map_end(bytes: &mut [u8], kept: usize, images: &[u8; 256])
    requires { kept ≤ length bytes.old }
    ensures bytes { bytes.new ≡ take kept bytes.old ++ map (slice_index images.now) (drop kept bytes.old) }
    ensures len { length bytes.new ≡ length bytes.old }
{
    put_images(&mut bytes[kept..], images);
}

// Puts the image of each byte in its place.
fn put_images(bytes: &mut [u8], images: &[u8; 256])
    ensures { bytes.new ≡ map (slice_index images.now) bytes.old }
{
    for place in 0..bytes.len() {
        bytes[place] = images[usize::from(bytes[place])];
    }
}
