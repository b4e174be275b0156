// Laws of values: what `===` and the order of sort tell, and what conversions and positions keep.
ghost use Rattle.std.specs.Prelude.{◌≡◌, ◌≤◌, ◌+◌, ◌-◌, ℕ, ℤ, pos, negsuc, true, suc, Some};
ghost use Rattle.std.specs.Cmp.{IsEquivalence, IsTotalOrder};
ghost use Rattle.std.specs.Fmt.{signed_decimal};
ghost use Rattle.std.specs.declared.cmp.Ordering.TheVariants.{Equal};
ghost use Rattle.icn_defs.specs.Conversions.{fits, integer_of, position_of, text_of};
ghost use Rattle.icn_defs.specs.Images.{value_cmp};
ghost use Rattle.icn_value.specs.Sameness.{same};
ghost use Rattle.icn_value.specs.Store.{Heap, Names};
ghost use Rattle.icn_value.specs.Values.{Integer, Text, Value};

use icn_text::decimal_read_back;

/// `===` is an equivalence, and tells any two values apart that are not one.
pub fn equivalence_is_equality()
    ensures equivalence { IsEquivalence same }
    ensures equality { (a b : Value) → same a b ≡ true → a ≡ b }
{}

/// The order of sort is total, and only one and the same value ties with a value.
pub fn sorting_is_total()
    ensures total { (names : Names) (heap : Heap) → IsTotalOrder (value_cmp names heap) }
    ensures ties { (names : Names) (heap : Heap) (a b : Value) → value_cmp names heap a b ≡ Equal
        → same a b ≡ true }
{}

/// An integer of 64 bits becomes a text, and that text becomes the integer.
pub fn integers_survive_texts()
    ensures text { (n : ℤ) → text_of (Integer n) ≡ Some (signed_decimal n) }
    ensures back { (n : ℤ) → fits n ≡ true → integer_of (Text (signed_decimal n)) ≡ Some n }
{
    decimal_read_back();
}

/// A position in range is a place from 1 to one behind the last byte, and each place has two positions: itself, and one that counts from the end.
pub fn positions_are_places()
    ensures low { (n : ℤ) (size place : ℕ) → position_of n size ≡ Some place → 1 ≤ place }
    ensures high { (n : ℤ) (size place : ℕ) → position_of n size ≡ Some place → place ≤ size + 1 }
    ensures from_the_start { (size place : ℕ) → 1 ≤ place → place ≤ size + 1
        → position_of (pos place) size ≡ Some place }
    ensures behind_the_last { (size : ℕ) → position_of (pos 0) size ≡ Some (size + 1) }
    ensures from_the_end { (size n : ℕ) → suc n ≤ size → position_of (negsuc n) size ≡ Some (size - n) }
{}
