// What holds of the rows that change a heap, and of what stays. A call does nothing: it tells a caller's proof the law.
ghost use Rattle.std.specs.Prelude.{◌≡◌, ℕ, suc, List, length, None, Ok, Err, slice_index, slice_set};
ghost use Rattle.std.specs.List.{All};
ghost use Rattle.icn_value.specs.declared.full.Full.{Full as FullData};
ghost use Rattle.icn_value.specs.Values.{Value, Field, Val as ItemVal};
ghost use Rattle.icn_value.specs.Store.{Heap as DefinedHeap, Setting, having_heap};
ghost use Rattle.icn_value.specs.Changes.{made_coexp, next_coexp, with_field, with_result};
ghost use Rattle.icn_defs.specs.ReadAndAssign.{assigns_root};
ghost use Rattle.icn_defs.specs.Rows.{Row, Gives, Error as ErrorOutcome};
ghost use Rattle.icn_defs.specs.StepRows.{coexpression_row};
ghost use Rattle.icn_value.specs.declared.val.Val.{Val as ValData};
ghost use Rattle.icn_value.specs.declared.item.Item.{Item as ItemData};
ghost use Rattle.icn_heap.specs.Extents.{IsLive, KeepsValues};
ghost use Rattle.icn_heap.specs.Heaps.{extent_of, heap_of};
ghost use Rattle.icn_vars.specs.declared.world.World.{World as WorldData};
ghost use Rattle.icn_vars.specs.SettingFacts.{IsSoundSetting};
ghost use Rattle.icn_vars.specs.Worlds.{KeepsFields, KeepsItems, field_counts, reach_of};

/// The row of a new co-expression makes the change that `charge_coexp` of a heap makes, and is error 307 where that is refused.
pub fn coexpressions_are_made()
    ensures made { (locals : ℕ) (setting : Setting) (heap : DefinedHeap)
        → made_coexp setting.world.heap locals ≡ Ok heap → coexpression_row locals setting
        ≡ Gives (ItemVal (next_coexp setting.world.heap)) (having_heap (λ old. heap) setting) }
    ensures refused { (locals : ℕ) (setting : Setting) (full : FullData)
        → made_coexp setting.world.heap locals ≡ Err full
        → coexpression_row locals setting ≡ ErrorOutcome 307 None setting }
{}

/// A row that assigns to a field makes the change that `set_field` of a heap makes.
pub fn fields_are_assigned()
    ensures { (refused next : Row) (id place : ℕ) (value : Value) (setting : Setting)
        → assigns_root refused (Field id place) value next setting
        ≡ next (having_heap (with_field id place value) setting) }
{}

/// One more result of a co-expression is what `count` of a heap makes: its count is one more, and nothing else differs.
pub fn results_are_counted()
    ensures { (id : ℕ) (heap : DefinedHeap) → with_result id heap ≡ (let counted : DefinedHeap =
        record heap { coexps = slice_set heap.coexps id (suc (slice_index heap.coexps id)) } in counted) }
{}

/// What holds of a world, its locals and the items at hand stays where a call keeps the items and leaves locals that are live, and where a
/// heap grows.
pub fn settings_stay()
    ensures kept { (old new : WorldData) (before after : List ValData) (items : List ItemData)
        → KeepsItems (reach_of old before) (reach_of new after) → All (IsLive (extent_of new.heap)) after
        → IsSoundSetting old before items → IsSoundSetting new after items }
    ensures grown { (old new : WorldData) (locals : List ValData) (items : List ItemData)
        → KeepsValues (extent_of old.heap) (extent_of new.heap)
        → KeepsFields (field_counts (heap_of old.heap)) (field_counts (heap_of new.heap))
        → length new.globals.items ≡ length old.globals.items
        → length new.statics.items ≡ length old.statics.items → IsSoundSetting old locals items
        → IsSoundSetting new locals items }
{}
