// What stays of a table, entry by entry.
ghost use Rattle.std.specs.Prelude.{◌≡◌, ◌<◌, ◌^◌, ◌==◌, [], length, replicate, slice_get, unwrap_or, None, IfOk, OnOk};
ghost use Rattle.std.specs.List.{All, list_any};
ghost use Rattle.icn_prune.specs.PrunedCode.{new_place, with_place, with_places};
ghost use Rattle.icn_prune.specs.Renumbering.{ArePlaces};

use std::alloc::{AllocError, Global};

/// The places of the entries of a table that stay, in the order in which they stand then; and for each entry of the whole table its
/// new place, where it stays.
#[derive(Drop)]
pub struct Places {
    pub left: Vec<u32>,
    new_places: Vec<Option<u32>>,
    ghost places: { ArePlaces left.items new_places.items },
}

impl Places {
    /// Of a table of so many entries those at these places stay, each once, in the order of first mention. The error is want of memory.
    pub fn of_mentions(alloc: Global, count: usize, mentions: &[u32]) -> Result<Self, AllocError>
        requires few { count < 2 ^ 32 }
        requires there { All (λ place. place < count) mentions.now }
        ensures { IfOk result (λ places. places.left.items ≡ with_places [] mentions.now) }
    {
        let mut places = Places::none(alloc, count)?;
        for place in mentions {
            places.enter(*place)?;
        }
        Ok(places)
    }

    // Nothing stays of a table of so many entries.
    fn none(alloc: Global, count: usize) -> Result<Self, AllocError>
        requires few { count < 2 ^ 32 }
        ensures left { IfOk result (λ places. places.left.items ≡ []) }
        ensures counted { IfOk result (λ places. length places.new_places.items ≡ count) }
    {
        let left = Vec::new(alloc);
        let new_places = no_places(alloc, count)?;
        Ok(Places { left, new_places })
    }

    // An entry stays, behind those that stay already, unless it is one of these.
    fn enter(&mut self, place: u32) -> Result<(), AllocError>
        requires there { place < length self.old.new_places.items }
        ensures left { OnOk result (self.new.left.items ≡ with_place self.old.left.items place) }
        ensures counted { OnOk result (length self.new.new_places.items ≡ length self.old.new_places.items) }
    {
        if self.stays(place) {
            return Ok(());
        }
        let new = self.left.len() as u32;
        self.left.push(place)?;
        self.new_places[place as usize] = Some(new);
        Ok(())
    }

    /// Whether an entry stays.
    pub fn stays(&self, place: u32) -> bool
        ensures { result ≡ list_any (λ other. other == place) self.now.left.items }
    {
        match self.place_kept(place) {
            Some(_) => true,
            None => false,
        }
    }

    /// The new place of an entry; of one that does not stay, how many stay.
    pub fn new_place(&self, place: u32) -> u32
        ensures { result ≡ new_place self.now.left.items place }
    {
        match self.place_kept(place) {
            Some(new) => new,
            None => self.left.len() as u32,
        }
    }

    // The new place of an entry, if it stays.
    fn place_kept(&self, place: u32) -> Option<u32>
        ensures { result ≡ unwrap_or (slice_get self.now.new_places.items place) None }
    {
        match self.new_places.get(place as usize) {
            Some(new) => *new,
            None => None,
        }
    }
}

// No new place for each of so many entries.
fn no_places(alloc: Global, count: usize) -> Result<Vec<Option<u32>>, AllocError>
    ensures { IfOk result (λ places. places.items ≡ replicate count None) }
{
    let mut places = Vec::new(alloc);
    for _entry in 0..count {
        places.push(None)?;
    }
    Ok(places)
}
