// The sizes of values.
use crate::counts::count_of_results;
use crate::entries::count_of;
use crate::heap::Heap;
use crate::members::count_at;
use icn_text::decimal;
use icn_value::Val;

impl Heap {
    ghost use Rattle.std.specs.Prelude.{◌≡◌, ◌<◌, ◌^◌, length, IfSome};
    ghost use Rattle.icn_value.specs.declared.val.Val.TheVariants.{Rec, List, Set, Table, Coexp};
    ghost use Rattle.icn_value.specs.Sizes.{size_of};
    ghost use Rattle.icn_value.specs.Store.{list_at, set_at, table_at, record_at, count_at};
    ghost use Rattle.icn_heap.specs.Extents.{IsLive, value_in};
    ghost use Rattle.icn_heap.specs.Heaps.{extent_of, heap_of};

    /// The size of a value: how many bytes a text, the text of an integer or a cset has, how many elements a structure, and how many
    /// results a co-expression gave. `None` comes exactly where a value has no size. It takes no memory.
    pub fn size(&self, val: Val) -> Option<u64>
        requires { IsLive (extent_of self.now) val }
        ensures size { result ≡ size_of (heap_of self.now) (value_in (extent_of self.now) val) }
        ensures small { IfSome result (λ size. size < 2 ^ 63) }
    {
        match val {
            Val::Null => None,
            Val::Integer(n) => Some(decimal(n).as_bytes().len() as u64),
            Val::Text(span) => Some(self.bytes(span).len() as u64),
            Val::Chars(cset) => Some(u64::from(cset.size())),
            Val::Std(_) => None,
            Val::Proc(_) => None,
            Val::Rec(id) => Some(self.field_count(id)),
            Val::List(id) => Some(self.item_count(id)),
            Val::Set(id) => Some(self.member_count(id)),
            Val::Table(id) => Some(self.pair_count(id)),
            Val::Coexp(id) => Some(self.result_count(id)),
        }
    }

    // How many items a list has.
    pub(crate) fn item_count(&self, id: u32) -> u64
        requires { IsLive (extent_of self.now) (List id) }
        ensures count { result ≡ length (list_at (heap_of self.now) id).items }
        ensures small { result < 2 ^ 63 }
    {
        self.list(id).len()
    }

    // How many members a set has.
    #[tactic(auto, unfolding(crate::specs::Heaps::extent_of))]
    pub(crate) fn member_count(&self, id: u32) -> u64
        requires { IsLive (extent_of self.now) (Set id) }
        ensures count { result ≡ length (set_at (heap_of self.now) id) }
        ensures small { result < 2 ^ 63 }
    {
        count_at(&self.sets, id)
    }

    // How many pairs a table has.
    #[tactic(auto, unfolding(crate::specs::Heaps::extent_of))]
    pub(crate) fn pair_count(&self, id: u32) -> u64
        requires { IsLive (extent_of self.now) (Table id) }
        ensures count { result ≡ length (table_at (heap_of self.now) id).pairs }
        ensures small { result < 2 ^ 63 }
    {
        count_of(&self.tables, id)
    }

    // How many fields a record has.
    #[tactic(auto, unfolding(crate::specs::Heaps::extent_of))]
    fn field_count(&self, id: u32) -> u64
        requires { IsLive (extent_of self.now) (Rec id) }
        ensures count { result ≡ length (record_at (heap_of self.now) id).fields }
        ensures small { result < 2 ^ 63 }
    {
        self.records.at(id).len()
    }

    // How many results a co-expression gave.
    #[tactic(auto, unfolding(crate::specs::Heaps::extent_of))]
    fn result_count(&self, id: u32) -> u64
        requires { IsLive (extent_of self.now) (Coexp id) }
        ensures count { result ≡ count_at (heap_of self.now) id }
        ensures small { result < 2 ^ 63 }
    {
        count_of_results(&self.coexps, id)
    }
}
