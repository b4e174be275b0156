// In which order things came whose numbers close up.
ghost use Rattle.std.specs.Prelude.{◌≡◌, ◌<◌, ◌^◌, ◌++◌, ◌∷◌, [], Some, length, map, slice_get, OnOk, OnErr};
ghost use Rattle.icn_structs.specs.GapLists.{present};
ghost use Rattle.icn_structs.specs.Turns.{without_number, IsNumbering, IsStanding};

use crate::gaps::Gaps;
use std::alloc::{AllocError, Global};
use std::marker::Model;

/// The order in which things came that are numbered from 0 on without a gap: where one goes, the last takes its number, and the
/// order stays. A clause sees the numbers in that order. Only `add` takes memory. `at` and `remove` take logarithmic time, `remove`
/// over many calls.
#[derive(Drop)]
pub struct Turns {
    // the index in `order` at which a number stands
    places: Vec<usize>,
    order: Gaps,
}

impl Model for Turns {
    ghost use Rattle.std.specs.Prelude.{ℕ, List};
    ghost use Rattle.icn_structs.specs.GapLists.{present};
    ghost use Rattle.icn_structs.specs.Turns.{IsStanding};

    ghost Value = { List ℕ };

    ghost view = { λ t. present t.order };

    ghost invariant = { λ t. IsStanding t.places.items t.order };
}

// Has each number stand where it is in an order without gaps.
fn renumber(places: &mut Vec<usize>, order: &Gaps)
    requires closed { order.now ≡ map Some (present order.now) }
    requires numbering { IsNumbering (present order.now) }
    requires count { length (present order.now) ≡ length places.old.items }
    ensures standing { IsStanding places.new.items order.now }
{
    let mut place = 0;
    while let Some(number) = order.at(place) {
        places[number] = place;
        place += 1;
    }
}

// Has a number go from its place, and the last one take its number.
fn take_out(places: &mut Vec<usize>, order: &mut Gaps, number: usize)
    requires standing { IsStanding places.old.items order.old }
    requires there { number < length places.old.items }
    ensures standing { IsStanding places.new.items order.new }
    ensures rest { present order.new ≡ without_number number (present order.old) }
{
    let place = places.swap_remove(number);
    order.clear(place);
    if number < places.len() {
        order.set(places[number], number);
    }
}

// Has a number more, behind all. An error is want of memory, and nothing changed.
fn put_behind(places: &mut Vec<usize>, order: &mut Gaps) -> Result<(), AllocError>
    requires standing { IsStanding places.old.items order.old }
    ensures standing { IsStanding places.new.items order.new }
    ensures added { OnOk result (present order.new ≡ present order.old ++ length (present order.old) ∷ []) }
    ensures unchanged { OnErr result (present order.new ≡ present order.old) }
{
    let number = places.len();
    places.push(order.len())?;
    match order.push(number) {
        Ok(()) => Ok(()),
        Err(want) => {
            places.pop();
            Err(want)
        }
    }
}

impl Turns {
    /// Nothing.
    pub fn new(alloc: Global) -> Turns
        ensures none { result ≡ [] }
        ensures numbering { IsNumbering result }
    {
        Turns {
            places: Vec::new(alloc),
            order: Gaps::new(alloc),
        }
    }

    /// A thing comes, behind all others, with the next number. An error is want of memory, and nothing changed.
    pub fn add(&mut self) -> Result<(), AllocError>
        ensures added { OnOk result (self.new ≡ self.old ++ length self.old ∷ []) }
        ensures unchanged { OnErr result (self.new ≡ self.old) }
        ensures numbering { IsNumbering self.new }
    {
        put_behind(&mut self.places, &mut self.order)
    }

    /// The thing with this number goes, and the last one takes its number.
    pub fn remove(&mut self, number: usize)
        requires there { number < length self.old }
        ensures rest { self.new ≡ without_number number self.old }
        ensures numbering { IsNumbering self.new }
    {
        take_out(&mut self.places, &mut self.order, number);
        if self.order.len() / 2 > self.places.len() + 4 {
            self.close();
        }
    }

    // Closes the gaps.
    fn close(&mut self)
        ensures same { self.new ≡ self.old }
    {
        self.order.close();
        renumber(&mut self.places, &self.order);
    }

    /// The number of the thing at a place of the order, counted from 0. `None` comes exactly where there is no such place.
    pub fn at(&self, place: usize) -> Option<usize>
        ensures number { result ≡ slice_get self.now place }
    {
        self.order.at(place)
    }

    /// How many things there are.
    pub fn len(&self) -> usize
        ensures count { result ≡ length self.now }
        ensures small { length self.now < 2 ^ 63 }
        ensures numbering { IsNumbering self.now }
    {
        self.order.count()
    }
}
