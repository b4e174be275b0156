// Laws of sorting.
ghost use Rattle.std.specs.Prelude.{◌≡◌, List};
ghost use Rattle.std.specs.Cmp.{IsTotalOrder};
ghost use Rattle.std.specs.List.Sorted.{IsPermutation, IsSorted};
ghost use Rattle.std.specs.declared.cmp.Ordering.{Ordering};
ghost use Rattle.std.specs.declared.cmp.Ordering.TheVariants.{Equal};
ghost use Rattle.icn_defs.specs.Conversions.{sort_list};
ghost use Rattle.icn_defs.specs.Images.{value_cmp};
ghost use Rattle.icn_defs.specs.Structures.{entry_cmp, key_cmp};
ghost use Rattle.icn_structs.specs.PairLists.{KeysDiffer};
ghost use Rattle.icn_value.specs.Sameness.{same};
ghost use Rattle.icn_value.specs.Store.{Heap, Names};
ghost use Rattle.icn_value.specs.Values.{Value};

/// What is sorted has what was there, ascending by an order that is total; and where only one and the same item ties with an item, no other list
/// has this.
pub fn sorting_puts_in_order<T>()
    ensures same { (cmp : T → T → Ordering) (xs : List T) → IsPermutation xs (sort_list cmp xs) }
    ensures ascending { (cmp : T → T → Ordering) → IsTotalOrder cmp → (xs : List T)
        → IsSorted cmp (sort_list cmp xs) }
    ensures alone { (cmp : T → T → Ordering) → IsTotalOrder cmp → ((x y : T) → cmp x y ≡ Equal → x ≡ y)
        → (xs ys : List T) → IsPermutation xs ys → IsSorted cmp ys → ys ≡ sort_list cmp xs }
{}

/// So a list that has the same values and ascends is the one that `sort` gives, and so are the pairs of a table by key, since its keys differ, or by
/// value and then by key.
pub fn sorting_is_one()
    ensures values { (names : Names) (heap : Heap) (xs ys : List Value) → IsPermutation xs ys
        → IsSorted (value_cmp names heap) ys → ys ≡ sort_list (value_cmp names heap) xs }
    ensures keys { (names : Names) (heap : Heap) (xs ys : List (Value × Value)) → KeysDiffer same xs
        → IsPermutation xs ys → IsSorted (key_cmp names heap) ys → ys ≡ sort_list (key_cmp names heap) xs }
    ensures entries { (names : Names) (heap : Heap) (xs ys : List (Value × Value)) → IsPermutation xs ys
        → IsSorted (entry_cmp names heap) ys → ys ≡ sort_list (entry_cmp names heap) xs }
{}
