// What the keywords give.
ghost use Rattle.std.specs.Prelude.{◌≡◌, ◌<◌, ◌≤◌, Some, IfOk, OnOk, IfSome, ℕ, []};
ghost use Rattle.std.specs.List.{range_with_len};
ghost use Rattle.std.specs.Option.{option_map};
ghost use Rattle.icn_profile.specs.Numbers.{most_levels};
ghost use Rattle.icn_value.specs.Members.{members_of};
ghost use Rattle.icn_value.specs.Store.{Outside};
ghost use Rattle.icn_value.specs.declared.item.Item.TheVariants.{Var as HeldVar};
ghost use Rattle.icn_value.specs.declared.item.VarRef.TheVariants.{Whole as HeldWhole};
ghost use Rattle.icn_value.specs.declared.item.Root.TheVariants.{Keyword as HeldKeyword};
ghost use Rattle.icn_defs.specs.Images.{digit_bytes, lcase, letters, ucase};
ghost use Rattle.icn_defs.specs.Keywords.{keyword_item};
ghost use Rattle.icn_vars.specs.Worlds.{IsLiveItem, item_in, KeepsItems, reach_of, world_of};
ghost use Rattle.icn_code.specs.Codes.{Tables};
ghost use Rattle.icn_code.specs.declared.instr.Instr.TheVariants as Instrs;
ghost use Rattle.icn_control.specs.Machines.{HasStack, IsSoundMachine, StandsAt, does};
ghost use Rattle.icn_control.specs.Soundness.{IsRunnable};
ghost use Rattle.icn_control.specs.KeywordsRead.{standing_at};
ghost use Rattle.icn_heap.specs.Heaps.{extent_of};
ghost use Rattle.icn_heap.specs.Heaps.{heap_of};
ghost use Rattle.icn_control.specs.LiveStacks.{with_locals};

use crate::kept_errors::{kept_number, kept_text, kept_value};
use crate::machine::{Machine, RunState};
use icn_frames::{Cell, Stack};
use icn_text::Keyword;
use icn_value::{Cset, File, Item, KeywordVariable, Root, Val, VarRef};
use icn_vars::World;
use std::alloc::AllocError;

// `&ascii`
fn ascii() -> Cset
    ensures { members_of result ≡ range_with_len 0 128 }
{
    Cset {
        words: [u64::MAX, u64::MAX, 0, 0],
    }
}

// `&cset`
fn all_bytes() -> Cset
    ensures { members_of result ≡ range_with_len 0 256 }
{
    Cset {
        words: [u64::MAX, u64::MAX, u64::MAX, u64::MAX],
    }
}

// `&digits`
fn digits() -> Cset
    ensures { members_of result ≡ digit_bytes }
{
    Cset {
        words: [287948901175001088, 0, 0, 0],
    }
}

// `&lcase`
fn lower_case() -> Cset
    ensures { members_of result ≡ lcase }
{
    Cset {
        words: [0, 576460743713488896, 0, 0],
    }
}

// `&ucase`
fn upper_case() -> Cset
    ensures { members_of result ≡ ucase }
{
    Cset {
        words: [0, 134217726, 0, 0],
    }
}

// `&letters`
fn both_cases() -> Cset
    ensures { members_of result ≡ letters }
{
    Cset {
        words: [0, 576460743847706622, 0, 0],
    }
}

/// What a keyword gives, in a procedure of this level, up to 4294967295, in this co-expression, which this one activated. `&fail`
/// gives nothing, nor do the keywords of the error that is kept where none is, and `&errorvalue` where it is about no value. The
/// error is want of memory.
#[tactic(auto, using(icn_vars::proofs::KeptItems::keeps_items_refl))]
pub fn keyword_item(
    world: &mut World,
    word: Keyword,
    level: u64,
    current: u32,
    source: u32,
) -> Result<Option<Item>, AllocError>
    requires { level ≤ most_levels }
    ensures item { IfOk result (λ item. option_map (item_in (extent_of world.new.heap)) item
        ≡ keyword_item (standing_at level current source world.old) word) }
    ensures live { IfOk result (λ item. current < (extent_of world.old.heap).coexps
        → source < (extent_of world.old.heap).coexps
        → IfSome item (λ x. (n : ℕ) → IsLiveItem (with_locals n (reach_of world.new [])) x)) }
    ensures kept { KeepsItems (reach_of world.old []) (reach_of world.new []) }
    ensures world { world_of world.new ≡ world_of world.old }
    ensures heap { heap_of world.new.heap ≡ heap_of world.old.heap }
{
    match word {
        Keyword::Ascii => Ok(Some(Item::Val(Val::Chars(ascii())))),
        Keyword::Cset => Ok(Some(Item::Val(Val::Chars(all_bytes())))),
        Keyword::Current => Ok(Some(Item::Val(Val::Coexp(current)))),
        Keyword::Digits => Ok(Some(Item::Val(Val::Chars(digits())))),
        Keyword::Errout => Ok(Some(Item::Val(Val::Std(File::Errout)))),
        Keyword::Fail => Ok(None),
        Keyword::Input => Ok(Some(Item::Val(Val::Std(File::Input)))),
        Keyword::Lcase => Ok(Some(Item::Val(Val::Chars(lower_case())))),
        Keyword::Letters => Ok(Some(Item::Val(Val::Chars(both_cases())))),
        Keyword::Level => Ok(Some(Item::Val(Val::Integer(level as i64)))),
        Keyword::Main => Ok(Some(Item::Val(Val::Coexp(0)))),
        Keyword::Null => Ok(Some(Item::Val(Val::Null))),
        Keyword::Output => Ok(Some(Item::Val(Val::Std(File::Output)))),
        Keyword::Pos => Ok(of_word(KeywordVariable::Position)),
        Keyword::Random => Ok(of_word(KeywordVariable::Random)),
        Keyword::Source => Ok(Some(Item::Val(Val::Coexp(source)))),
        Keyword::Subject => Ok(of_word(KeywordVariable::Subject)),
        Keyword::Ucase => Ok(Some(Item::Val(Val::Chars(upper_case())))),
        Keyword::Error => Ok(of_word(KeywordVariable::ErrorCount)),
        Keyword::ErrorNumber => Ok(kept_number(world.words.kept)),
        Keyword::ErrorValue => Ok(kept_value(world)),
        Keyword::ErrorText => kept_text(world),
    }
}

// The variable of a keyword.
fn of_word(word: KeywordVariable) -> Option<Item>
    ensures { result ≡ Some (HeldVar (HeldWhole (HeldKeyword word))) }
{
    Some(Item::Var(VarRef::Whole(Root::Keyword(word))))
}

/// Pushes what a keyword gives, or fails where it gives nothing. The error is want of memory.
pub fn push_keyword<K: Stack<Cell> + Drop>(
    m: &mut Machine<K>,
    word: Keyword,
) -> Result<RunState, AllocError>
    requires stands { IsRunnable m.old }
    ensures step { IfOk result (λ stage. (tables : Tables) (outside : Outside)
        → StandsAt tables outside (does tables outside (Instrs.Keywd word) m.old) m.new stage) }
    ensures sound { OnOk result ((tables : Tables) → IsSoundMachine tables m.old
        → IsSoundMachine tables m.new) }
    ensures limits { m.new.limits ≡ m.old.limits }
    ensures stack { IfOk result (HasStack m.new) }
{
    let active = m.stacks.active();
    let source = m.stacks.source();
    let frames = m.stacks.frames();
    let level = frames.level();
    let item = keyword_item(&mut m.world, word, level, active, source)?;
    match item {
        None => Ok(RunState::Failing),
        Some(x) => {
            frames.push(x)?;
            Ok(RunState::Running)
        }
    }
}
