// The code of a procedure as far as it is written.
ghost use Rattle.std.specs.Prelude.{◌≡◌, ◌+◌, ◌<◌, ◌≤◌, [], IfOk, OnOk, length, map};
ghost use Rattle.icn_profile.specs.Numbers.{number_limit};
ghost use Rattle.icn_unit.specs.declared.unit.UnitInstr.TheVariants.{Cofail, Coret, Create as CreateInstr, Efail, Field as FieldInstr, Goto as GotoInstr, Lab as LabInstr, Mark as MarkInstr};
ghost use Rattle.icn_unit.specs.UnitOperands.{keyword_of};
ghost use Rattle.icn_translate.specs.Drafts.{case_end, end_number, in_case, in_loop, innermost, last_number, name_index, next_label, next_number, number_of, with_number, outside_case, outside_loop, put, put_end, put_last, put_next, put_variable, no_ways, with_end, with_label, with_last, with_name, with_next, ◌▹◌};
ghost use Rattle.icn_translate.specs.Instructions.{literal_instr};
ghost use Rattle.icn_translate.specs.OpenMarks.{unmarks_for_break, unmarks_for_next};
ghost use Rattle.icn_translate.specs.Room.{IsRoomFor, TakesAtMost, numbers_given};
ghost use Rattle.icn_translate.specs.Translation.{keyword_code, loop_end, next_code, put_mark};
ghost use Rattle.icn_translate.specs.Views.{draft_of, open_of, pass_instr};

use crate::forms::{keyword_instr, literal_instr};
use crate::marks::{OpenMarks, is_nextless};
use icn_tree::{Bytes, Literal};
use icn_unit::{UnitInstr, keyword};
use indexmap::IndexSet;
use std::alloc::{AllocError, Global};
use std::collections::VecDeque;

/// The labels of an open loop that were mentioned.
#[derive(Clone, Copy)]
pub struct LoopLabels {
    /// The label that `next` goes to.
    pub next: Option<u32>,
    /// The last label, which `break` goes to.
    pub last: Option<u32>,
}

/// How a loop goes on with its next pass.
#[derive(Clone, Copy)]
pub enum Pass {
    /// At this label.
    At(u32),
    /// With the next result of its control expression.
    NextResult,
}

/// The code of a procedure as far as it is written. Each call that may fail fails for want of memory. Its numbers have 32 bits:
/// a call that gives a new one asks for room.
#[derive(Drop)]
pub struct Builder<'a> {
    /// Where what it keeps is allocated.
    pub alloc: Global,
    /// The instructions so far.
    pub instrs: Vec<UnitInstr>,
    /// How many labels have a number.
    pub labels: u32,
    /// The names so far, those that are declared first.
    pub names: IndexSet<&'a [u8]>,
    /// The labels of the open loops, the innermost first.
    pub loops: VecDeque<LoopLabels>,
    /// The last labels of the open cases, the innermost first.
    pub cases: VecDeque<Option<u32>>,
}

/// A count as an operand.
pub fn count_operand(n: usize) -> u32
    requires { n < number_limit }
    ensures { result ≡ n }
{
    n as u32
}

impl<'a> Builder<'a> {
    /// No instructions yet, with these names.
    #[tactic(auto, unfolding(crate::specs::Views::draft_of, crate::specs::Room::numbers_given))]
    pub fn new(alloc: Global, names: IndexSet<&'a [u8]>) -> Self
        ensures draft { draft_of result ≡ record {
          instrs = [];
          labels = 0;
          names = map (λ name. name.now) names.entry.keys;
          loops = [];
          cases = [];
        } }
        ensures given { numbers_given (draft_of result) ≤ length names.entry.keys }
    {
        Builder {
            alloc,
            instrs: Vec::new(alloc),
            labels: 0,
            names,
            loops: VecDeque::new(alloc),
            cases: VecDeque::new(alloc),
        }
    }

    /// The names so far.
    #[tactic(auto, unfolding(crate::specs::Views::draft_of))]
    pub fn all_names(&self) -> &[&'a [u8]]
        ensures { map (λ name. name.now) result.now ≡ (draft_of self.now).names }
    {
        self.names.as_slice()
    }

    /// The instructions.
    #[tactic(auto, unfolding(crate::specs::Views::draft_of))]
    pub fn into_instrs(self) -> Vec<UnitInstr>
        ensures { result.items ≡ (draft_of self.entry).instrs }
    {
        self.instrs
    }

    /// Writes an instruction. `AllocError` is want of memory.
    #[tactic(auto, unfolding(crate::specs::Views::draft_of, crate::specs::Drafts::put, crate::specs::Room::numbers_given))]
    pub fn put(&mut self, instr: UnitInstr) -> Result<(), AllocError>
        ensures draft { OnOk result (draft_of self.new ≡ put instr (draft_of self.old)) }
        ensures given { OnOk result (TakesAtMost 0 (draft_of self.old) (draft_of self.new)) }
    {
        self.instrs.push(instr)?;
        Ok(())
    }

    /// Writes the instruction of a literal. `AllocError` is want of memory.
    pub fn put_literal(&mut self, value: &Literal) -> Result<(), AllocError>
        ensures draft { OnOk result (draft_of self.new ≡ put (literal_instr value.now) (draft_of self.old)) }
        ensures given { OnOk result (TakesAtMost 0 (draft_of self.old) (draft_of self.new)) }
    {
        let instr = literal_instr(self.alloc, value)?;
        self.put(instr)
    }

    /// Writes the instruction of a keyword, by its name. One that is unknown never stands in a program, and has none. `AllocError`
    /// is want of memory.
    pub fn put_keyword(&mut self, name: &[u8]) -> Result<(), AllocError>
        ensures draft { OnOk result
            (draft_of self.new ≡ keyword_code (keyword_of name.now) (draft_of self.old)) }
        ensures given { OnOk result (TakesAtMost 0 (draft_of self.old) (draft_of self.new)) }
    {
        match keyword(name) {
            Some(found) => self.put(keyword_instr(found)),
            None => Ok(()),
        }
    }

    /// Writes `field` with a name. `AllocError` is want of memory.
    pub fn put_field(&mut self, name: &[u8]) -> Result<(), AllocError>
        ensures draft { OnOk result (draft_of self.new ≡ put (FieldInstr name.now) (draft_of self.old)) }
        ensures given { OnOk result (TakesAtMost 0 (draft_of self.old) (draft_of self.new)) }
    {
        let name = Bytes::from_slice(self.alloc, name)?;
        self.put(UnitInstr::Field(name))
    }

    /// Writes two instructions. `AllocError` is want of memory.
    pub fn put_two(&mut self, first: UnitInstr, second: UnitInstr) -> Result<(), AllocError>
        ensures draft { OnOk result (draft_of self.new ≡ put second (put first (draft_of self.old))) }
        ensures given { OnOk result (TakesAtMost 0 (draft_of self.old) (draft_of self.new)) }
    {
        self.put(first)?;
        self.put(second)
    }

    /// A new label.
    #[tactic(auto, unfolding(crate::specs::Views::draft_of, crate::specs::Drafts::next_label, crate::specs::Drafts::with_label, crate::specs::Room::numbers_given))]
    pub fn label(&mut self) -> u32
        requires { IsRoomFor 1 (draft_of self.old) }
        ensures number { result ≡ next_label (draft_of self.old) }
        ensures draft { draft_of self.new ≡ with_label (draft_of self.old) }
        ensures given { TakesAtMost 1 (draft_of self.old) (draft_of self.new) }
    {
        self.labels += 1;
        self.labels
    }

    /// Writes `mark` with a new label. `AllocError` is want of memory.
    pub fn put_mark(&mut self) -> Result<u32, AllocError>
        requires { IsRoomFor 1 (draft_of self.old) }
        ensures number { IfOk result (λ label. label ≡ next_label (draft_of self.old)) }
        ensures draft { OnOk result (draft_of self.new ≡ put_mark (draft_of self.old)) }
        ensures given { OnOk result (TakesAtMost 1 (draft_of self.old) (draft_of self.new)) }
    {
        let label = self.label();
        self.put(UnitInstr::Mark(label))?;
        Ok(label)
    }

    // The number of a label, which may have been mentioned.
    fn number(&mut self, known: Option<u32>) -> u32
        requires { IsRoomFor 1 (draft_of self.old) }
        ensures number { result ≡ number_of known (draft_of self.old) }
        ensures draft { draft_of self.new ≡ with_number known (draft_of self.old) }
        ensures given { TakesAtMost 1 (draft_of self.old) (draft_of self.new) }
    {
        match known {
            Some(label) => label,
            None => self.label(),
        }
    }

    /// Writes the variable of a name. `AllocError` is want of memory.
    #[tactic(auto, unfolding(crate::specs::Views::draft_of, crate::specs::Drafts::put_variable, crate::specs::Room::numbers_given))]
    pub fn put_variable(&mut self, name: &'a [u8]) -> Result<(), AllocError>
        requires { IsRoomFor 1 (draft_of self.old) }
        ensures draft { OnOk result (draft_of self.new ≡ put_variable name.now (draft_of self.old)) }
        ensures given { OnOk result (TakesAtMost 1 (draft_of self.old) (draft_of self.new)) }
    {
        let place = enter_name(&mut self.names, name)?;
        self.instrs.push(UnitInstr::Var(place))?;
        Ok(())
    }

    /// Goes on in one more loop, with these labels. `AllocError` is want of memory.
    #[tactic(auto, unfolding(crate::specs::Views::draft_of, crate::specs::Drafts::in_loop, crate::specs::Room::numbers_given))]
    pub fn enter_loop(&mut self, ways: LoopLabels) -> Result<(), AllocError>
        ensures draft { OnOk result (draft_of self.new ≡ in_loop ways (draft_of self.old)) }
        ensures given { OnOk result (TakesAtMost 0 (draft_of self.old) (draft_of self.new)) }
    {
        self.loops.push_front(ways)?;
        Ok(())
    }

    /// Goes on outside the innermost loop, and gives its labels.
    #[tactic(auto, unfolding(crate::specs::Views::draft_of, crate::specs::Drafts::outside_loop, crate::specs::Drafts::innermost, crate::specs::Room::numbers_given))]
    pub fn leave_loop(&mut self) -> LoopLabels
        ensures ways { result ≡ innermost (draft_of self.old) }
        ensures draft { draft_of self.new ≡ outside_loop (draft_of self.old) }
        ensures given { TakesAtMost 0 (draft_of self.old) (draft_of self.new) }
    {
        match self.loops.pop_front() {
            Some(ways) => ways,
            None => UNMENTIONED,
        }
    }

    /// The label that `next` goes to in the innermost loop, which is mentioned. `AllocError` is want of memory.
    pub fn next_label(&mut self) -> Result<u32, AllocError>
        requires { IsRoomFor 1 (draft_of self.old) }
        ensures number { IfOk result (λ label. label ≡ next_number (draft_of self.old)) }
        ensures draft { OnOk result (draft_of self.new ≡ with_next (draft_of self.old)) }
        ensures given { OnOk result (TakesAtMost 1 (draft_of self.old) (draft_of self.new)) }
    {
        let ways = self.leave_loop();
        let label = self.number(ways.next);
        self.enter_loop(LoopLabels {
            next: Some(label),
            last: ways.last,
        })?;
        Ok(label)
    }

    /// The last label of the innermost loop, which is mentioned. `AllocError` is want of memory.
    pub fn last_label(&mut self) -> Result<u32, AllocError>
        requires { IsRoomFor 1 (draft_of self.old) }
        ensures number { IfOk result (λ label. label ≡ last_number (draft_of self.old)) }
        ensures draft { OnOk result (draft_of self.new ≡ with_last (draft_of self.old)) }
        ensures given { OnOk result (TakesAtMost 1 (draft_of self.old) (draft_of self.new)) }
    {
        let ways = self.leave_loop();
        let label = self.number(ways.last);
        self.enter_loop(LoopLabels {
            next: ways.next,
            last: Some(label),
        })?;
        Ok(label)
    }

    /// Goes on in one more case. `AllocError` is want of memory.
    #[tactic(auto, unfolding(crate::specs::Views::draft_of, crate::specs::Drafts::in_case, crate::specs::Room::numbers_given))]
    pub fn enter_case(&mut self, end: Option<u32>) -> Result<(), AllocError>
        ensures draft { OnOk result (draft_of self.new ≡ in_case end (draft_of self.old)) }
        ensures given { OnOk result (TakesAtMost 0 (draft_of self.old) (draft_of self.new)) }
    {
        self.cases.push_front(end)?;
        Ok(())
    }

    /// Goes on outside the innermost case, and gives its last label.
    #[tactic(auto, unfolding(crate::specs::Views::draft_of, crate::specs::Drafts::outside_case, crate::specs::Drafts::case_end, crate::specs::Room::numbers_given))]
    pub fn leave_case(&mut self) -> Option<u32>
        ensures label { result ≡ case_end (draft_of self.old) }
        ensures draft { draft_of self.new ≡ outside_case (draft_of self.old) }
        ensures given { TakesAtMost 0 (draft_of self.old) (draft_of self.new) }
    {
        match self.cases.pop_front() {
            Some(end) => end,
            None => None,
        }
    }

    /// The last label of the innermost case, which is mentioned. `AllocError` is want of memory.
    pub fn end_label(&mut self) -> Result<u32, AllocError>
        requires { IsRoomFor 1 (draft_of self.old) }
        ensures number { IfOk result (λ label. label ≡ end_number (draft_of self.old)) }
        ensures draft { OnOk result (draft_of self.new ≡ with_end (draft_of self.old)) }
        ensures given { OnOk result (TakesAtMost 1 (draft_of self.old) (draft_of self.new)) }
    {
        let end = self.leave_case();
        let label = self.number(end);
        self.enter_case(Some(label))?;
        Ok(label)
    }

    /// Writes `unmark` for each mark that was opened in the innermost loop. `AllocError` is want of memory.
    pub fn put_unmarks_for_break(&mut self, within: OpenMarks<'_>) -> Result<(), AllocError>
        ensures draft { OnOk result
            (draft_of self.new ≡ unmarks_for_break (open_of within.entry) (draft_of self.old)) }
        ensures given { OnOk result (TakesAtMost 0 (draft_of self.old) (draft_of self.new)) }
    {
        match within {
            OpenMarks::Outermost | OpenMarks::Loop(_) => Ok(()),
            OpenMarks::Mark(outer) => {
                self.put(UnitInstr::Unmark)?;
                self.put_unmarks_for_break(*outer)
            }
            OpenMarks::Control(_) | OpenMarks::Each(_) => self.put(UnitInstr::Unmark),
        }
    }

    /// Writes `unmark` for each mark that was opened since the place that `next` goes to was last passed. `AllocError` is
    /// want of memory.
    pub fn put_unmarks_for_next(&mut self, within: OpenMarks<'_>) -> Result<(), AllocError>
        ensures draft { OnOk result
            (draft_of self.new ≡ unmarks_for_next (open_of within.entry) (draft_of self.old)) }
        ensures given { OnOk result (TakesAtMost 0 (draft_of self.old) (draft_of self.new)) }
    {
        match within {
            OpenMarks::Outermost
            | OpenMarks::Loop(_)
            | OpenMarks::Control(_)
            | OpenMarks::Each(_) => Ok(()),
            OpenMarks::Mark(outer) => {
                self.put(UnitInstr::Unmark)?;
                self.put_unmarks_for_next(*outer)
            }
        }
    }

    /// Writes a new label at its place. `AllocError` is want of memory.
    pub fn put_label(&mut self) -> Result<u32, AllocError>
        requires { IsRoomFor 1 (draft_of self.old) }
        ensures number { IfOk result (λ label. label ≡ next_label (draft_of self.old)) }
        ensures draft { OnOk result (draft_of self.new ≡ (draft_of self.old ▹ with_label
            ▹ put (LabInstr (next_label (draft_of self.old))))) }
        ensures given { OnOk result (TakesAtMost 1 (draft_of self.old) (draft_of self.new)) }
    {
        let label = self.label();
        self.put(UnitInstr::Lab(label))?;
        Ok(label)
    }

    /// Begins a loop with its first label. `AllocError` is want of memory.
    pub fn begin_loop(&mut self) -> Result<u32, AllocError>
        requires { IsRoomFor 1 (draft_of self.old) }
        ensures start { IfOk result (λ start. start ≡ next_label (draft_of self.old)) }
        ensures draft { OnOk result (draft_of self.new ≡ (draft_of self.old ▹ with_label
            ▹ put (LabInstr (next_label (draft_of self.old))) ▹ in_loop no_ways)) }
        ensures given { OnOk result (TakesAtMost 1 (draft_of self.old) (draft_of self.new)) }
    {
        let start = self.put_label()?;
        self.enter_loop(UNMENTIONED)?;
        Ok(start)
    }

    /// Writes `mark` with the label that `next` goes to. `AllocError` is want of memory.
    pub fn put_next_mark(&mut self) -> Result<(), AllocError>
        requires { IsRoomFor 1 (draft_of self.old) }
        ensures draft { OnOk result (draft_of self.new ≡ put_next MarkInstr (draft_of self.old)) }
        ensures given { OnOk result (TakesAtMost 1 (draft_of self.old) (draft_of self.new)) }
    {
        let label = self.next_label()?;
        self.put(UnitInstr::Mark(label))
    }

    /// Writes what ends a loop: the label that `next` goes to, what goes on with the next pass, and the last label.
    /// `AllocError` is want of memory.
    pub fn end_loop(&mut self, pass: Pass) -> Result<(), AllocError>
        requires { IsRoomFor 2 (draft_of self.old) }
        ensures draft { OnOk result (draft_of self.new ≡ loop_end (pass_instr pass) (draft_of self.old)) }
        ensures given { OnOk result (TakesAtMost 2 (draft_of self.old) (draft_of self.new)) }
    {
        let next = self.next_label()?;
        self.put_two(UnitInstr::Lab(next), pass_instr(pass))?;
        let last = self.last_label()?;
        self.put(UnitInstr::Lab(last))?;
        self.leave_loop();
        Ok(())
    }

    /// Writes `goto` to the label that `next` goes to. `AllocError` is want of memory.
    pub fn put_next_goto(&mut self) -> Result<(), AllocError>
        requires { IsRoomFor 1 (draft_of self.old) }
        ensures draft { OnOk result (draft_of self.new ≡ put_next GotoInstr (draft_of self.old)) }
        ensures given { OnOk result (TakesAtMost 1 (draft_of self.old) (draft_of self.new)) }
    {
        let label = self.next_label()?;
        self.put(UnitInstr::Goto(label))
    }

    /// Writes `next`. Where it may not stand it has no code. `AllocError` is want of memory.
    pub fn put_next(&mut self, within: OpenMarks<'_>) -> Result<(), AllocError>
        requires { IsRoomFor 1 (draft_of self.old) }
        ensures draft { OnOk result
            (draft_of self.new ≡ next_code (open_of within.entry) (draft_of self.old)) }
        ensures given { OnOk result (TakesAtMost 1 (draft_of self.old) (draft_of self.new)) }
    {
        if is_nextless(within) {
            return Ok(());
        }
        self.put_unmarks_for_next(within)?;
        self.put_next_goto()
    }

    /// Goes on in one more loop, with these labels, and writes `goto` to its last one. `AllocError` is want of memory.
    pub fn put_last_goto(&mut self, ways: LoopLabels) -> Result<(), AllocError>
        requires { IsRoomFor 1 (draft_of self.old) }
        ensures draft { OnOk result
            (draft_of self.new ≡ put_last GotoInstr (in_loop ways (draft_of self.old))) }
        ensures given { OnOk result (TakesAtMost 1 (draft_of self.old) (draft_of self.new)) }
    {
        self.enter_loop(ways)?;
        let label = self.last_label()?;
        self.put(UnitInstr::Goto(label))
    }

    /// Writes `goto` to the last label of the innermost case. `AllocError` is want of memory.
    pub fn put_end_goto(&mut self) -> Result<(), AllocError>
        requires { IsRoomFor 1 (draft_of self.old) }
        ensures draft { OnOk result (draft_of self.new ≡ put_end GotoInstr (draft_of self.old)) }
        ensures given { OnOk result (TakesAtMost 1 (draft_of self.old) (draft_of self.new)) }
    {
        let label = self.end_label()?;
        self.put(UnitInstr::Goto(label))
    }

    /// Ends a case with its last label. `AllocError` is want of memory.
    pub fn end_case(&mut self) -> Result<(), AllocError>
        requires { IsRoomFor 1 (draft_of self.old) }
        ensures draft { OnOk result
            (draft_of self.new ≡ outside_case (put_end LabInstr (draft_of self.old))) }
        ensures given { OnOk result (TakesAtMost 1 (draft_of self.old) (draft_of self.new)) }
    {
        let label = self.end_label()?;
        self.put(UnitInstr::Lab(label))?;
        self.leave_case();
        Ok(())
    }

    /// Writes `goto` with a new label, and a label at its place. `AllocError` is want of memory.
    pub fn put_goto(&mut self, label: u32) -> Result<u32, AllocError>
        requires { IsRoomFor 1 (draft_of self.old) }
        ensures number { IfOk result (λ end. end ≡ next_label (draft_of self.old)) }
        ensures draft { OnOk result (draft_of self.new ≡ (draft_of self.old ▹ with_label
            ▹ put (GotoInstr (next_label (draft_of self.old))) ▹ put (LabInstr label))) }
        ensures given { OnOk result (TakesAtMost 1 (draft_of self.old) (draft_of self.new)) }
    {
        let end = self.label();
        self.put_two(UnitInstr::Goto(end), UnitInstr::Lab(label))?;
        Ok(end)
    }

    /// Writes `create` with a new label. `AllocError` is want of memory.
    pub fn put_create(&mut self) -> Result<u32, AllocError>
        requires { IsRoomFor 1 (draft_of self.old) }
        ensures number { IfOk result (λ label. label ≡ next_label (draft_of self.old)) }
        ensures draft { OnOk result (draft_of self.new ≡ (draft_of self.old ▹ with_label
            ▹ put (CreateInstr (next_label (draft_of self.old))))) }
        ensures given { OnOk result (TakesAtMost 1 (draft_of self.old) (draft_of self.new)) }
    {
        let label = self.label();
        self.put(UnitInstr::Create(label))?;
        Ok(label)
    }

    /// Writes what ends a create body, whose marks have these labels. `AllocError` is want of memory.
    pub fn end_created(&mut self, inner: u32, outer: u32) -> Result<(), AllocError>
        ensures draft { OnOk result (draft_of self.new ≡ (draft_of self.old ▹ put Coret ▹ put Efail
            ▹ put (LabInstr inner) ▹ put Cofail ▹ put (LabInstr outer))) }
        ensures given { OnOk result (TakesAtMost 0 (draft_of self.old) (draft_of self.new)) }
    {
        self.put_two(UnitInstr::Coret, UnitInstr::Efail)?;
        self.put_two(UnitInstr::Lab(inner), UnitInstr::Cofail)?;
        self.put(UnitInstr::Lab(outer))
    }
}

/// The labels of a loop of which none was mentioned.
pub const UNMENTIONED: LoopLabels = LoopLabels {
    next: None,
    last: None,
};

/// The place of a name among names, which it joins where it is new. `AllocError` is want of memory.
pub fn enter_name<'a>(names: &mut IndexSet<&'a [u8]>, name: &'a [u8]) -> Result<u32, AllocError>
    requires { length names.old.keys < number_limit }
    ensures place { IfOk result
        (λ place. place ≡ name_index (map (λ name. name.now) names.old.keys) name.now) }
    ensures names { OnOk result
        (map (λ name. name.now) names.new.keys ≡ with_name (map (λ name. name.now) names.old.keys) name.now) }
    ensures given { OnOk result (length names.new.keys ≤ length names.old.keys + 1) }
{
    let (place, _) = names.insert_full(name)?;
    Ok(count_operand(place))
}

// The instruction that goes on with the next pass.
fn pass_instr(pass: Pass) -> UnitInstr
    ensures { result ≡ pass_instr pass }
{
    match pass {
        Pass::At(label) => UnitInstr::Loop(label),
        Pass::NextResult => UnitInstr::Efail,
    }
}
