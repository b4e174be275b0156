// Laws of what is resumed with nothing done between: the next result comes, in order, and then none.
ghost use Rattle.std.specs.Prelude.{◌≡◌, ◌≤◌, ◌+◌, ◌-◌, ℕ, List, map};
ghost use Rattle.std.specs.List.{range_with_len};
ghost use Rattle.icn_profile.specs.Numbers.{greatest_integer};
ghost use Rattle.icn_defs.specs.Conversions.{contains};
ghost use Rattle.icn_defs.specs.Elements.{element_item, field_item};
ghost use Rattle.icn_defs.specs.Scanning.{among_from, byte_behind, found_from, stands};
ghost use Rattle.icn_value.specs.Store.{list_at, Names, record_at, set_at, Setting, table_at};
ghost use Rattle.icn_value.specs.Values.{AList, ARecord, ASet, ATable, Text, Val};
ghost use Rattle.law_rows.specs.Results.{byte_item, counts, GivesAll, integer_item, keys, pair_key, pair_variable, places_of, places_that, walk};

/// `i to j` gives i, i + 1 and so on up to j.
pub fn counting_goes_in_order()
    ensures { (first last : ℕ) (at : Setting) → first ≤ last + 1 → last ≤ greatest_integer
        → GivesAll (counts first last) at (map integer_item (range_with_len first (last + 1 - first))) }
{}

/// `!x` and `key(T)` give all elements from the first to the last.
pub fn walks_go_in_order()
    ensures bytes { (bytes : List ℕ) (at : Setting) → GivesAll (walk (Text bytes)) at (map byte_item bytes) }
    ensures items { (id : ℕ) (at : Setting) → let list = list_at at.world.heap id in
        GivesAll (walk (AList id)) at (map (element_item id list) (places_of list.items)) }
    ensures members { (id : ℕ) (at : Setting)
        → GivesAll (walk (ASet id)) at (map Val (set_at at.world.heap id)) }
    ensures values { (id : ℕ) (at : Setting)
        → GivesAll (walk (ATable id)) at (map (pair_variable id) (table_at at.world.heap id).pairs) }
    ensures fields { (id : ℕ) (at : Setting) → GivesAll (walk (ARecord id)) at
        (map (field_item id) (places_of (record_at at.world.heap id).fields)) }
    ensures keys { (names : Names) (id : ℕ) (at : Setting)
        → GivesAll (keys names id) at (map pair_key (table_at at.world.heap id).pairs) }
{}

/// `find` gives each place at which the text stands and by which it ends, and `upto` each place before a byte of the cset, from the first to
/// the last.
pub fn searches_go_in_order()
    ensures find { (wanted text : List ℕ) (place last : ℕ) (at : Setting) → place ≤ last + 1
        → GivesAll (found_from wanted text place last) at
        (map integer_item (places_that (λ p. stands wanted text p last) place (last + 1))) }
    ensures upto { (bytes text : List ℕ) (place last : ℕ) (at : Setting) → place ≤ last
        → GivesAll (among_from bytes text place last) at
        (map integer_item (places_that (λ p. contains bytes (byte_behind text p)) place last)) }
{}
