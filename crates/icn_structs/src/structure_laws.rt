// Laws of the definitions that contracts cite.
ghost use Rattle.std.specs.Prelude.{◌≡◌, ◌≢◌, ℤ, ℕ, List, None, Some, IsSome, slice_get, pos, ◌+ℤ◌, ◌-ℤ◌, ◌<ℤ◌, ◌≤ℤ◌, if◌then◌else◌};
ghost use Rattle.icn_structs.specs.Numbered.{NumberedList, number_after, item_numbered, with_numbered, with_left, with_right, without_left, without_right};
ghost use Rattle.icn_structs.specs.PairLists.{value_of, with_value_of, without, KeysDiffer};

/// The numbers of a list follow without a gap, and an item's number stays with it, whatever joins, leaves or is set beside
/// it.
pub fn numbers_stay<T>()
    ensures follow { (list : NumberedList T) (place : ℕ)
        → item_numbered list (list.number +ℤ pos place) ≡ slice_get list.items place }
    ensures joins_left { (list : NumberedList T) (item : T) (n : ℤ) → list.number ≤ℤ n
        → item_numbered (with_left list item) n ≡ item_numbered list n }
    ensures joins_right { (list : NumberedList T) (item : T) (n : ℤ) → n ≢ number_after list
        → item_numbered (with_right list item) n ≡ item_numbered list n }
    ensures leaves_left { (list : NumberedList T) (n : ℤ) → list.number <ℤ n
        → item_numbered (without_left list) n ≡ item_numbered list n }
    ensures leaves_right { (list : NumberedList T) (n : ℤ) → (n +ℤ pos 1) ≢ number_after list
        → item_numbered (without_right list) n ≡ item_numbered list n }
    ensures set { (list : NumberedList T) (item : T) (n : ℤ) → IsSome (item_numbered list n)
        → item_numbered (with_numbered list n item) n ≡ Some item }
    ensures set_alone { (list : NumberedList T) (item : T) (n m : ℤ) → m ≢ n
        → item_numbered (with_numbered list n item) m ≡ item_numbered list m }
{}

/// A value stays at its key, whatever is stored at another key or removed there.
pub fn values_stay<K: Eq, V>()
    ensures stored { (pairs : List (K × V)) (key other : K) (value : V)
        → value_of K.eq (with_value_of K.eq pairs key value) other ≡ (if K.eq key other
        then Some value else value_of K.eq pairs other) }
    ensures removed { (pairs : List (K × V)) (key other : K)
        → KeysDiffer K.eq pairs → value_of K.eq (without K.eq pairs key) other ≡ (if K.eq key other
        then None else value_of K.eq pairs other) }
{}
