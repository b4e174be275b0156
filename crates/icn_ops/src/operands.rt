// Two operands, as the rows of two operands want them.
ghost use Rattle.std.specs.Prelude.{ℕ, ℤ, IfErr, IfOk, OnOk};
ghost use Rattle.std.specs.declared.cmp.Ordering.{Ordering};
ghost use Rattle.icn_value.specs.Store.{Outside};
ghost use Rattle.icn_value.specs.declared.val.Val.TheVariants.{List};
ghost use Rattle.icn_heap.specs.Extents.{IsLive, IsText, text_in, values_in};
ghost use Rattle.icn_heap.specs.Heaps.{extent_of};
ghost use Rattle.icn_vars.specs.Stops.{IsLiveStop};
ghost use Rattle.icn_vars.specs.Worlds.{AreLiveThree, AreLiveTwo, IsLiveOperand, IsShortItem, KeepsLive, item_in, setting_of};
ghost use Rattle.icn_args.specs.RowWords.{IsFound};
ghost use Rattle.icn_ops.specs.Operands as operands;
ghost use Rattle.icn_ops.specs.Operands.{ordered_text_in, texts_in, three_in};

use icn_args::{check_text, integer_of, list_of, number_of, text_of, texts_of};
use icn_value::{Item, Span, Val};
use icn_vars::{Locals, Stop, World, deref};
use std::cmp::Ordering;

/// The values of two operands. The error is that of an operand that cannot be read.
pub fn two_values<L: Locals>(w: &World, l: &L, x: Item, y: Item) -> Result<(Val, Val), Stop>
    requires live { AreLiveTwo w.now (L.items l.now) x y }
    ensures first_live { IfOk result (λ two. IsLive (extent_of w.now.heap) two.0) }
    ensures second_live { IfOk result (λ two. IsLive (extent_of w.now.heap) two.1) }
    ensures short { OnOk result (IsShortItem x) }
    ensures stops { IfErr result (IsLiveStop (extent_of w.now.heap)) }
    ensures found { (outside : Outside) → IsFound (extent_of w.now.heap)
        (operands.two_values (item_in (extent_of w.now.heap) x) (item_in (extent_of w.now.heap) y))
        (setting_of outside w.now (L.items l.now)) (setting_of outside w.now (L.items l.now))
        (values_in (extent_of w.now.heap)) result }
{
    let a = deref(w, l, x)?;
    let b = deref(w, l, y)?;
    Ok((a, b))
}

/// The integers of two operands. The error is 102 about the first that is none, or that of an operand that cannot be read.
pub fn two_numbers<L: Locals>(w: &World, l: &L, x: Item, y: Item) -> Result<(i64, i64), Stop>
    requires live { AreLiveTwo w.now (L.items l.now) x y }
    ensures stops { IfErr result (IsLiveStop (extent_of w.now.heap)) }
    ensures found { (outside : Outside) → IsFound (extent_of w.now.heap)
        (operands.two_numbers (item_in (extent_of w.now.heap) x) (item_in (extent_of w.now.heap) y))
        (setting_of outside w.now (L.items l.now)) (setting_of outside w.now (L.items l.now))
        (λ (two : ℤ × ℤ). two) result }
{
    let (a, b) = two_values(w, l, x, y)?;
    let m = number_of(&w.heap, a)?;
    let n = number_of(&w.heap, b)?;
    Ok((m, n))
}

/// The order of the integers of two operands, and the right one. The error is 102 about the first that is none, or that of
/// an operand that cannot be read.
pub fn compared_numbers<L: Locals>(
    w: &World,
    l: &L,
    x: Item,
    y: Item,
) -> Result<(Ordering, i64), Stop>
    requires live { AreLiveTwo w.now (L.items l.now) x y }
    ensures stops { IfErr result (IsLiveStop (extent_of w.now.heap)) }
    ensures found { (outside : Outside) → IsFound (extent_of w.now.heap)
        (operands.compared_numbers (item_in (extent_of w.now.heap) x) (item_in (extent_of w.now.heap) y))
        (setting_of outside w.now (L.items l.now)) (setting_of outside w.now (L.items l.now))
        (λ (two : Ordering × ℤ). two) result }
{
    let (m, n) = two_numbers(w, l, x, y)?;
    Ok((m.cmp(&n), n))
}

/// The texts of two operands. Those that are made are charged. The error is 103 about the first that has none, 306 where the
/// limit refuses the charge, or that of an operand that cannot be read.
pub fn two_texts<L: Locals>(w: &mut World, l: &L, x: Item, y: Item) -> Result<(Span, Span), Stop>
    requires live { AreLiveTwo w.old (L.items l.now) x y }
    ensures first_live { IfOk result (λ two. IsText (extent_of w.new.heap) two.0) }
    ensures second_live { IfOk result (λ two. IsText (extent_of w.new.heap) two.1) }
    ensures stops { IfErr result (IsLiveStop (extent_of w.new.heap)) }
    ensures found { (outside : Outside) → IsFound (extent_of w.new.heap)
        (operands.two_texts (item_in (extent_of w.old.heap) x) (item_in (extent_of w.old.heap) y))
        (setting_of outside w.old (L.items l.now)) (setting_of outside w.new (L.items l.now))
        (texts_in (extent_of w.new.heap)) result }
    ensures kept { KeepsLive w.old (L.items l.now) w.new (L.items l.now) }
{
    let (a, b) = two_values(w, l, x, y)?;
    check_text(a)?;
    check_text(b)?;
    texts_of(w, l, a, b)
}

/// The order of the texts of two operands, and the right one. Those that are made are charged. The error is 103 about the
/// first that has none, 306 where the limit refuses the charge, or that of an operand that cannot be read.
pub fn compared_texts<L: Locals>(
    w: &mut World,
    l: &L,
    x: Item,
    y: Item,
) -> Result<(Ordering, Span), Stop>
    requires live { AreLiveTwo w.old (L.items l.now) x y }
    ensures live { IfOk result (λ two. IsText (extent_of w.new.heap) two.1) }
    ensures stops { IfErr result (IsLiveStop (extent_of w.new.heap)) }
    ensures found { (outside : Outside) → IsFound (extent_of w.new.heap)
        (operands.compared_texts (item_in (extent_of w.old.heap) x) (item_in (extent_of w.old.heap) y))
        (setting_of outside w.old (L.items l.now)) (setting_of outside w.new (L.items l.now))
        (ordered_text_in (extent_of w.new.heap)) result }
    ensures kept { KeepsLive w.old (L.items l.now) w.new (L.items l.now) }
{
    let (s, t) = two_texts(w, l, x, y)?;
    Ok((w.heap.bytes(s).cmp(w.heap.bytes(t)), t))
}

/// The text of an operand. One that is made is charged. The error is 103 about a value that has none, 306 where the limit
/// refuses the charge, or that of an operand that cannot be read.
pub fn one_text<L: Locals>(w: &mut World, l: &L, x: Item) -> Result<Span, Stop>
    requires live { IsLiveOperand w.old (L.items l.now) x }
    ensures live { IfOk result (IsText (extent_of w.new.heap)) }
    ensures stops { IfErr result (IsLiveStop (extent_of w.new.heap)) }
    ensures found { (outside : Outside) → IsFound (extent_of w.new.heap)
        (operands.one_text (item_in (extent_of w.old.heap) x)) (setting_of outside w.old (L.items l.now))
        (setting_of outside w.new (L.items l.now)) (text_in (extent_of w.new.heap)) result }
    ensures kept { KeepsLive w.old (L.items l.now) w.new (L.items l.now) }
{
    let val = deref(w, l, x)?;
    check_text(val)?;
    text_of(w, l, val)
}

/// The numbers of the lists that two operands are. The error is 108 about the first that is none, or that of an operand that
/// cannot be read.
pub fn two_lists<L: Locals>(w: &World, l: &L, x: Item, y: Item) -> Result<(u32, u32), Stop>
    requires live { AreLiveTwo w.now (L.items l.now) x y }
    ensures first_live { IfOk result (λ two. IsLive (extent_of w.now.heap) (List two.0)) }
    ensures second_live { IfOk result (λ two. IsLive (extent_of w.now.heap) (List two.1)) }
    ensures stops { IfErr result (IsLiveStop (extent_of w.now.heap)) }
    ensures found { (outside : Outside) → IsFound (extent_of w.now.heap)
        (operands.two_lists (item_in (extent_of w.now.heap) x) (item_in (extent_of w.now.heap) y))
        (setting_of outside w.now (L.items l.now)) (setting_of outside w.now (L.items l.now))
        (λ (two : ℕ × ℕ). two) result }
{
    let (a, b) = two_values(w, l, x, y)?;
    let first = list_of(a)?;
    let second = list_of(b)?;
    Ok((first, second))
}

/// The integers of three operands. The error is 101 about the first that is none, or that of an operand that cannot be read.
pub fn three_integers<L: Locals>(
    w: &World,
    l: &L,
    x: Item,
    y: Item,
    z: Item,
) -> Result<(i64, i64, i64), Stop>
    requires live { AreLiveThree w.now (L.items l.now) x y z }
    ensures stops { IfErr result (IsLiveStop (extent_of w.now.heap)) }
    ensures found { (outside : Outside) → IsFound (extent_of w.now.heap)
        (operands.three_integers (item_in (extent_of w.now.heap) x) (item_in (extent_of w.now.heap) y)
        (item_in (extent_of w.now.heap) z)) (setting_of outside w.now (L.items l.now))
        (setting_of outside w.now (L.items l.now)) (λ (three : ℤ × ℤ × ℤ). three) result }
{
    let (from, to, by) = three_values(w, l, x, y, z)?;
    let given = integer_of(&w.heap, from)?;
    let last = integer_of(&w.heap, to)?;
    let step = integer_of(&w.heap, by)?;
    Ok((given, last, step))
}

/// The values of three operands. The error is that of an operand that cannot be read.
pub fn three_values<L: Locals>(
    w: &World,
    l: &L,
    x: Item,
    y: Item,
    z: Item,
) -> Result<(Val, Val, Val), Stop>
    requires live { AreLiveThree w.now (L.items l.now) x y z }
    ensures first_live { IfOk result (λ three. IsLive (extent_of w.now.heap) three.0) }
    ensures second_live { IfOk result (λ three. IsLive (extent_of w.now.heap) three.1) }
    ensures third_live { IfOk result (λ three. IsLive (extent_of w.now.heap) three.2) }
    ensures short { OnOk result (IsShortItem x) }
    ensures stops { IfErr result (IsLiveStop (extent_of w.now.heap)) }
    ensures found { (outside : Outside) → IsFound (extent_of w.now.heap)
        (operands.three_values (item_in (extent_of w.now.heap) x) (item_in (extent_of w.now.heap) y)
        (item_in (extent_of w.now.heap) z)) (setting_of outside w.now (L.items l.now))
        (setting_of outside w.now (L.items l.now)) (three_in (extent_of w.now.heap)) result }
{
    let (a, b) = two_values(w, l, x, y)?;
    let c = deref(w, l, z)?;
    Ok((a, b, c))
}
