// The code of expressions.
ghost use Rattle.std.specs.Prelude.{◌≡◌, ◌+◌, IfOk, OnOk};
ghost use Rattle.icn_tree.specs.TreeOf.{all_clauses_of, all_of, clause_of, tree_of};
ghost use Rattle.icn_unit.specs.declared.unit.UnitInstr.TheVariants as I;
ghost use Rattle.icn_translate.specs.Drafts.{◌▹◌, in_loop, next_label, no_ways, put, with_label};
ghost use Rattle.icn_translate.specs.OpenMarks.{Looped, Marked, Outermost as OutermostOpen, around};
ghost use Rattle.icn_translate.specs.NumbersTaken.{all_numbers, clause_numbers, numbers};
ghost use Rattle.icn_translate.specs.Room.{IsRoomFor, TakesAtMost, default_numbers, guard_numbers, guarded_numbers};
ghost use Rattle.icn_translate.specs.Translation.{alternative, arguments, augmented_form, back, bounded_code, break_code, case_of, compound, conjunction, control_part, create_code, creations, default_part, either_step, elements, guarded_part, guarded_clause, in_body, in_control, is_empty, is_no_element, loop_end, looped_body, operands, other_creations, plain_form, prefix_by, put_mark, subscripts, translate, unless_empty};
ghost use Rattle.icn_translate.specs.Views.{draft_of, open_of, pass_instr};

use crate::builder::{Builder, Pass, UNMENTIONED, count_operand};
use crate::forms::{
    InfixForm, PrefixForm, UpdateForm, infix_form, prefix_form, section_op, update_form,
};
use crate::marks::{OpenMarks, around, is_loopless};
use icn_text::Op;
use icn_tree::{Clause, Expr, Infix, LoopKind};
use icn_unit::UnitInstr;
use std::alloc::AllocError;

impl<'a> Builder<'a> {
    /// Writes the code of an expression, with these marks and loops open. `AllocError` is want of memory.
    #[cycle(translate)]
    pub fn put_expr(&mut self, expr: &'a Expr, within: OpenMarks<'_>) -> Result<(), AllocError>
        requires { IsRoomFor (numbers (tree_of expr.now)) (draft_of self.old) }
        ensures draft { OnOk result
            (draft_of self.new ≡ translate (open_of within.entry) (tree_of expr.now) (draft_of self.old)) }
        ensures given { OnOk result
            (TakesAtMost (numbers (tree_of expr.now)) (draft_of self.old) (draft_of self.new)) }
    {
        match expr {
            Expr::Empty => self.put(UnitInstr::Pnull),
            Expr::Literal { value, .. } => self.put_literal(value),
            Expr::Identifier { name } => self.put_variable(name.text.as_slice()),
            Expr::Keyword { name, .. } => self.put_keyword(name.text.as_slice()),
            Expr::Parentheses { elements, .. } => self.put_conjunction(elements, within),
            Expr::List { elements, .. } => self.put_list(elements, within),
            Expr::Compound { exprs, .. } => self.put_compound(exprs, within),
            Expr::Call {
                callee,
                arguments,
                ..
            } => self.put_call(callee, arguments, within),
            Expr::CoCall {
                callee,
                arguments,
                ..
            } => self.put_co_call(callee, arguments, within),
            Expr::Subscript {
                subject,
                subscripts,
                ..
            } => {
                self.put_expr(subject, within)?;
                self.put_subscripts(subscripts, within)
            }
            Expr::Section {
                kind,
                subject,
                from,
                to,
                ..
            } => {
                self.put_both(subject, from, within)?;
                self.put_expr(to, within)?;
                self.put(UnitInstr::Op(section_op(*kind)))
            }
            Expr::Field { subject, name, .. } => {
                self.put_expr(subject, within)?;
                self.put_field(name.text.as_slice())
            }
            Expr::Prefix {
                operator,
                operand,
                ..
            } => self.put_prefix(operand, prefix_form(*operator), within),
            Expr::Not { operand, .. } => self.put_not(operand, within),
            Expr::Binary {
                operator: Infix::Plain(operator),
                left,
                right,
                ..
            } => self.put_infix(left, right, infix_form(*operator), within),
            Expr::Binary {
                operator: Infix::Augmented(operator),
                left,
                right,
                ..
            } => self.put_augmented(left, right, update_form(*operator), within),
            Expr::To { from, to, by, .. } => {
                self.put_both(from, to, within)?;
                match by {
                    Some(by) => {
                        self.put_expr(by, within)?;
                        self.put(UnitInstr::Op(Op::ToBy))
                    }
                    None => self.put_two(UnitInstr::Int(1), UnitInstr::Op(Op::ToBy)),
                }
            }
            Expr::If {
                condition,
                then,
                otherwise,
                ..
            } => match otherwise {
                Some(otherwise) => self.put_if_else(condition, then, otherwise, within),
                None => self.put_if(condition, then, within),
            },
            Expr::Case {
                subject,
                clauses,
                ..
            } => self.put_case(subject, clauses, within),
            Expr::Loop {
                kind,
                control,
                body,
                ..
            } => {
                let pass = self.put_control(control, *kind, within)?;
                if let Some(body) = body {
                    self.put_looped(body, *kind, within)?;
                }
                self.end_loop(pass)
            }
            Expr::Repeat { body, .. } => self.put_repeat(body, within),
            Expr::Create { body, .. } => self.put_created(body),
            Expr::Next { .. } => self.put_next(within),
            Expr::Fail { .. } => self.put(UnitInstr::Pfail),
            Expr::Break { value, .. } => self.put_break(value, within),
            Expr::Return { value, .. } => self.put_return(value, within),
            Expr::Suspend { value, body, .. } => {
                self.put_suspended(value, within)?;
                match body {
                    Some(body) => self.put_resumed(body, within)?,
                    None => {
                        self.put_label()?;
                    }
                }
                self.put(UnitInstr::Efail)
            }
        }
    }

    // Two operands, one behind the other.
    #[cycle(translate)]
    fn put_both(
        &mut self,
        left: &'a Expr,
        right: &'a Expr,
        within: OpenMarks<'_>,
    ) -> Result<(), AllocError>
        requires { IsRoomFor (numbers (tree_of left.now) + numbers (tree_of right.now)) (draft_of self.old) }
        ensures draft { OnOk result
            (draft_of self.new ≡ (draft_of self.old ▹ translate (open_of within.entry) (tree_of left.now)
            ▹ translate (open_of within.entry) (tree_of right.now))) }
        ensures given { OnOk result
            (TakesAtMost (numbers (tree_of left.now) + numbers (tree_of right.now)) (draft_of self.old)
            (draft_of self.new)) }
    {
        self.put_expr(left, within)?;
        self.put_expr(right, within)
    }

    // A list.
    #[cycle(translate)]
    fn put_list(&mut self, exprs: &'a [Expr], within: OpenMarks<'_>) -> Result<(), AllocError>
        requires { IsRoomFor (all_numbers (all_of exprs.now)) (draft_of self.old) }
        ensures draft { OnOk result
            (draft_of self.new ≡ (draft_of self.old ▹ arguments (open_of within.entry) (all_of exprs.now)
            ▹ put (I.Llist (elements (all_of exprs.now))))) }
        ensures given { OnOk result
            (TakesAtMost (all_numbers (all_of exprs.now)) (draft_of self.old) (draft_of self.new)) }
    {
        let count = self.put_arguments(exprs, within)?;
        self.put(UnitInstr::Llist(count))
    }

    // A call.
    #[cycle(translate)]
    fn put_call(
        &mut self,
        callee: &'a Expr,
        exprs: &'a [Expr],
        within: OpenMarks<'_>,
    ) -> Result<(), AllocError>
        requires { IsRoomFor (numbers (tree_of callee.now) + all_numbers (all_of exprs.now))
            (draft_of self.old) }
        ensures draft { OnOk result
            (draft_of self.new ≡ (draft_of self.old ▹ translate (open_of within.entry) (tree_of callee.now)
            ▹ arguments (open_of within.entry) (all_of exprs.now)
            ▹ put (I.Invoke (elements (all_of exprs.now))))) }
        ensures given { OnOk result
            (TakesAtMost (numbers (tree_of callee.now) + all_numbers (all_of exprs.now)) (draft_of self.old)
            (draft_of self.new)) }
    {
        self.put_expr(callee, within)?;
        let count = self.put_arguments(exprs, within)?;
        self.put(UnitInstr::Invoke(count))
    }

    // A call with co-expressions.
    #[cycle(translate)]
    fn put_co_call(
        &mut self,
        callee: &'a Expr,
        exprs: &'a [Expr],
        within: OpenMarks<'_>,
    ) -> Result<(), AllocError>
        requires { IsRoomFor (numbers (tree_of callee.now) + all_numbers (all_of exprs.now))
            (draft_of self.old) }
        ensures draft { OnOk result
            (draft_of self.new ≡ (draft_of self.old ▹ translate (open_of within.entry) (tree_of callee.now)
            ▹ creations (all_of exprs.now)
            ▹ put (I.Llist (elements (all_of exprs.now))) ▹ put (I.Invoke 1))) }
        ensures given { OnOk result
            (TakesAtMost (numbers (tree_of callee.now) + all_numbers (all_of exprs.now)) (draft_of self.old)
            (draft_of self.new)) }
    {
        self.put_expr(callee, within)?;
        let count = self.put_creations(exprs)?;
        self.put_two(UnitInstr::Llist(count), UnitInstr::Invoke(1))
    }

    // `not`
    #[cycle(translate)]
    fn put_not(&mut self, operand: &'a Expr, within: OpenMarks<'_>) -> Result<(), AllocError>
        requires { IsRoomFor (1 + numbers (tree_of operand.now)) (draft_of self.old) }
        ensures draft { OnOk result
            (draft_of self.new ≡ (draft_of self.old ▹ put_mark
            ▹ translate (Marked (open_of within.entry)) (tree_of operand.now)
            ▹ put I.Unmark ▹ put I.Efail ▹ put (I.Lab (next_label (draft_of self.old))) ▹ put I.Pnull)) }
        ensures given { OnOk result
            (TakesAtMost (1 + numbers (tree_of operand.now)) (draft_of self.old) (draft_of self.new)) }
    {
        let label = self.put_mark()?;
        self.put_expr(operand, OpenMarks::Mark(&within))?;
        self.put_two(UnitInstr::Unmark, UnitInstr::Efail)?;
        self.put_two(UnitInstr::Lab(label), UnitInstr::Pnull)
    }

    // An operator between its operands. One that never stands there has no code.
    #[cycle(translate)]
    fn put_infix(
        &mut self,
        left: &'a Expr,
        right: &'a Expr,
        form: Option<InfixForm>,
        within: OpenMarks<'_>,
    ) -> Result<(), AllocError>
        requires { IsRoomFor (2 + numbers (tree_of left.now) + numbers (tree_of right.now))
            (draft_of self.old) }
        ensures draft { OnOk result
            (draft_of self.new ≡ plain_form form (translate (open_of within.entry) (tree_of left.now))
            (translate (Marked (open_of within.entry)) (tree_of left.now))
            (translate (open_of within.entry) (tree_of right.now))
            (draft_of self.old)) }
        ensures given { OnOk result
            (TakesAtMost (2 + numbers (tree_of left.now) + numbers (tree_of right.now)) (draft_of self.old)
            (draft_of self.new)) }
    {
        match form {
            None => Ok(()),
            Some(InfixForm::Both) => {
                self.put_expr(left, within)?;
                self.put(UnitInstr::Pop)?;
                self.put_expr(right, within)
            }
            Some(InfixForm::Scanning) => {
                self.put_expr(left, within)?;
                self.put(UnitInstr::Bscan)?;
                self.put_expr(right, within)?;
                self.put(UnitInstr::Escan)
            }
            Some(InfixForm::Either) => {
                let label = self.put_mark()?;
                self.put_expr(left, OpenMarks::Mark(&within))?;
                self.put(UnitInstr::Esusp)?;
                self.put_alternative(right, label, within)
            }
            Some(InfixForm::Limiting) => {
                self.put_expr(right, within)?;
                self.put(UnitInstr::Limit)?;
                self.put_expr(left, OpenMarks::Mark(&within))?;
                self.put(UnitInstr::Lsusp)
            }
            Some(InfixForm::Activating) => {
                self.put_both(left, right, within)?;
                self.put(UnitInstr::Coact)
            }
            Some(InfixForm::Spreading) => {
                self.put_both(left, right, within)?;
                self.put(UnitInstr::Appl)
            }
            Some(InfixForm::Operating(op)) => {
                self.put_both(left, right, within)?;
                self.put(UnitInstr::Op(op))
            }
        }
    }

    // A variable, once more, and an operand.
    #[cycle(translate)]
    fn put_doubled(
        &mut self,
        left: &'a Expr,
        right: &'a Expr,
        within: OpenMarks<'_>,
    ) -> Result<(), AllocError>
        requires { IsRoomFor (numbers (tree_of left.now) + numbers (tree_of right.now)) (draft_of self.old) }
        ensures draft { OnOk result
            (draft_of self.new ≡ (draft_of self.old ▹ translate (open_of within.entry) (tree_of left.now)
            ▹ put I.Dup ▹ translate (open_of within.entry) (tree_of right.now))) }
        ensures given { OnOk result
            (TakesAtMost (numbers (tree_of left.now) + numbers (tree_of right.now)) (draft_of self.old)
            (draft_of self.new)) }
    {
        self.put_expr(left, within)?;
        self.put(UnitInstr::Dup)?;
        self.put_expr(right, within)
    }

    // An operator with `:=` behind it. One that never stands there has no code.
    #[cycle(translate)]
    fn put_augmented(
        &mut self,
        left: &'a Expr,
        right: &'a Expr,
        form: Option<UpdateForm>,
        within: OpenMarks<'_>,
    ) -> Result<(), AllocError>
        requires { IsRoomFor (2 + numbers (tree_of left.now) + numbers (tree_of right.now))
            (draft_of self.old) }
        ensures draft { OnOk result
            (draft_of self.new ≡ augmented_form form (translate (open_of within.entry) (tree_of left.now))
            (translate (open_of within.entry) (tree_of right.now)) (draft_of self.old)) }
        ensures given { OnOk result
            (TakesAtMost (2 + numbers (tree_of left.now) + numbers (tree_of right.now)) (draft_of self.old)
            (draft_of self.new)) }
    {
        match form {
            None => Ok(()),
            Some(UpdateForm::Both) => {
                self.put_both(left, right, within)?;
                self.put(UnitInstr::Op(Op::Assign))
            }
            Some(UpdateForm::Scanning) => {
                self.put_expr(left, within)?;
                self.put_two(UnitInstr::Dup, UnitInstr::Bscan)?;
                self.put_expr(right, within)?;
                self.put_two(UnitInstr::Escan, UnitInstr::Op(Op::Assign))
            }
            Some(UpdateForm::Activating) => {
                self.put_doubled(left, right, within)?;
                self.put_two(UnitInstr::Coact, UnitInstr::Op(Op::Assign))
            }
            Some(UpdateForm::Operating(op)) => {
                self.put_doubled(left, right, within)?;
                self.put_two(UnitInstr::Op(op), UnitInstr::Op(Op::Assign))
            }
        }
    }

    // `if` without `else`
    #[cycle(translate)]
    fn put_if(
        &mut self,
        condition: &'a Expr,
        then: &'a Expr,
        within: OpenMarks<'_>,
    ) -> Result<(), AllocError>
        requires { IsRoomFor (2 + numbers (tree_of condition.now) + numbers (tree_of then.now))
            (draft_of self.old) }
        ensures draft { OnOk result
            (draft_of self.new ≡ (draft_of self.old ▹ put I.Mark0
            ▹ translate (Marked (open_of within.entry)) (tree_of condition.now) ▹ put I.Unmark
            ▹ translate (open_of within.entry) (tree_of then.now))) }
        ensures given { OnOk result
            (TakesAtMost (2 + numbers (tree_of condition.now) + numbers (tree_of then.now))
            (draft_of self.old) (draft_of self.new)) }
    {
        self.put(UnitInstr::Mark0)?;
        self.put_expr(condition, OpenMarks::Mark(&within))?;
        self.put(UnitInstr::Unmark)?;
        self.put_expr(then, within)
    }

    // `if` with `else`
    #[cycle(translate)]
    fn put_if_else(
        &mut self,
        condition: &'a Expr,
        then: &'a Expr,
        otherwise: &'a Expr,
        within: OpenMarks<'_>,
    ) -> Result<(), AllocError>
        requires { IsRoomFor (2 + numbers (tree_of condition.now) + numbers (tree_of then.now)
            + numbers (tree_of otherwise.now)) (draft_of self.old) }
        ensures draft { OnOk result
            (draft_of self.new ≡ (draft_of self.old ▹ put_mark
            ▹ translate (Marked (open_of within.entry)) (tree_of condition.now) ▹ put I.Unmark
            ▹ translate (open_of within.entry) (tree_of then.now)
            ▹ alternative (translate (open_of within.entry) (tree_of otherwise.now))
            (next_label (draft_of self.old)))) }
        ensures given { OnOk result
            (TakesAtMost (2 + numbers (tree_of condition.now) + numbers (tree_of then.now)
            + numbers (tree_of otherwise.now)) (draft_of self.old) (draft_of self.new)) }
    {
        let label = self.put_mark()?;
        self.put_expr(condition, OpenMarks::Mark(&within))?;
        self.put(UnitInstr::Unmark)?;
        self.put_expr(then, within)?;
        self.put_alternative(otherwise, label, within)
    }

    // `case`
    #[cycle(translate)]
    fn put_case(
        &mut self,
        subject: &'a Expr,
        clauses: &'a [Clause],
        within: OpenMarks<'_>,
    ) -> Result<(), AllocError>
        requires { IsRoomFor (1 + numbers (tree_of subject.now) + clause_numbers (all_clauses_of clauses.now))
            (draft_of self.old) }
        ensures draft { OnOk result
            (draft_of self.new ≡ (draft_of self.old ▹ put I.Mark0
            ▹ translate (Marked (open_of within.entry)) (tree_of subject.now) ▹ put I.Eret
            ▹ case_of (guarded_part (open_of within.entry) (all_clauses_of clauses.now))
            (default_part (open_of within.entry) (all_clauses_of clauses.now)))) }
        ensures given { OnOk result
            (TakesAtMost (1 + numbers (tree_of subject.now) + clause_numbers (all_clauses_of clauses.now))
            (draft_of self.old) (draft_of self.new)) }
    {
        self.put(UnitInstr::Mark0)?;
        self.put_expr(subject, OpenMarks::Mark(&within))?;
        self.put(UnitInstr::Eret)?;
        self.put_clauses(clauses, within)
    }

    // `repeat`
    #[cycle(translate)]
    fn put_repeat(&mut self, body: &'a Expr, within: OpenMarks<'_>) -> Result<(), AllocError>
        requires { IsRoomFor (4 + numbers (tree_of body.now)) (draft_of self.old) }
        ensures draft { OnOk result
            (draft_of self.new ≡ (draft_of self.old ▹ with_label
            ▹ put (I.Lab (next_label (draft_of self.old))) ▹ in_loop no_ways
            ▹ looped_body (translate (Marked (Looped (open_of within.entry))) (tree_of body.now))
            ▹ loop_end (I.Loop (next_label (draft_of self.old))))) }
        ensures given { OnOk result
            (TakesAtMost (4 + numbers (tree_of body.now)) (draft_of self.old) (draft_of self.new)) }
    {
        let start = self.begin_loop()?;
        self.put_looped(body, LoopKind::While, within)?;
        self.end_loop(Pass::At(start))
    }

    // `break`. Where no loop is open it never stands, and has no code.
    #[cycle(translate)]
    fn put_break(&mut self, value: &'a Expr, within: OpenMarks<'_>) -> Result<(), AllocError>
        requires { IsRoomFor (1 + numbers (tree_of value.now)) (draft_of self.old) }
        ensures draft { OnOk result (draft_of self.new ≡ break_code (open_of within.entry)
            (translate (around (open_of within.entry)) (tree_of value.now)) (draft_of self.old)) }
        ensures given { OnOk result
            (TakesAtMost (1 + numbers (tree_of value.now)) (draft_of self.old) (draft_of self.new)) }
    {
        if is_loopless(within) {
            return Ok(());
        }
        self.put_unmarks_for_break(within)?;
        let ways = self.leave_loop();
        self.put_expr(value, around(within))?;
        self.put_last_goto(ways)
    }

    // `return`
    #[cycle(translate)]
    fn put_return(&mut self, value: &'a Expr, within: OpenMarks<'_>) -> Result<(), AllocError>
        requires { IsRoomFor (1 + numbers (tree_of value.now)) (draft_of self.old) }
        ensures draft { OnOk result
            (draft_of self.new ≡ (draft_of self.old ▹ put_mark
            ▹ translate (Marked (open_of within.entry)) (tree_of value.now)
            ▹ put I.Pret ▹ put (I.Lab (next_label (draft_of self.old))) ▹ put I.Pfail)) }
        ensures given { OnOk result
            (TakesAtMost (1 + numbers (tree_of value.now)) (draft_of self.old) (draft_of self.new)) }
    {
        let label = self.put_mark()?;
        self.put_expr(value, OpenMarks::Mark(&within))?;
        self.put_two(UnitInstr::Pret, UnitInstr::Lab(label))?;
        self.put(UnitInstr::Pfail)
    }

    // `suspend`, before its `do` part
    #[cycle(translate)]
    fn put_suspended(&mut self, value: &'a Expr, within: OpenMarks<'_>) -> Result<(), AllocError>
        requires { IsRoomFor (numbers (tree_of value.now)) (draft_of self.old) }
        ensures draft { OnOk result
            (draft_of self.new ≡ (draft_of self.old ▹ put I.Mark0
            ▹ translate (Marked (open_of within.entry)) (tree_of value.now) ▹ put I.Psusp ▹ put I.Pop)) }
        ensures given { OnOk result
            (TakesAtMost (numbers (tree_of value.now)) (draft_of self.old) (draft_of self.new)) }
    {
        self.put(UnitInstr::Mark0)?;
        self.put_expr(value, OpenMarks::Mark(&within))?;
        self.put_two(UnitInstr::Psusp, UnitInstr::Pop)
    }

    // The `do` part of `suspend`.
    #[cycle(translate)]
    fn put_resumed(&mut self, body: &'a Expr, within: OpenMarks<'_>) -> Result<(), AllocError>
        requires { IsRoomFor (1 + numbers (tree_of body.now)) (draft_of self.old) }
        ensures draft { OnOk result
            (draft_of self.new ≡ (draft_of self.old
            ▹ bounded_code (translate (Marked (Marked (open_of within.entry))) (tree_of body.now)))) }
        ensures given { OnOk result
            (TakesAtMost (1 + numbers (tree_of body.now)) (draft_of self.old) (draft_of self.new)) }
    {
        let marked = OpenMarks::Mark(&within);
        self.put_bounded(body, OpenMarks::Mark(&marked))
    }

    // An operator before its operand. One that never stands there has no code.
    #[cycle(translate)]
    fn put_prefix(
        &mut self,
        operand: &'a Expr,
        form: Option<PrefixForm>,
        within: OpenMarks<'_>,
    ) -> Result<(), AllocError>
        requires { IsRoomFor (1 + numbers (tree_of operand.now)) (draft_of self.old) }
        ensures draft { OnOk result
            (draft_of self.new ≡ prefix_by form (translate (open_of within.entry) (tree_of operand.now))
            (translate (Marked (open_of within.entry)) (tree_of operand.now)) (draft_of self.old)) }
        ensures given { OnOk result
            (TakesAtMost (1 + numbers (tree_of operand.now)) (draft_of self.old) (draft_of self.new)) }
    {
        match form {
            None => Ok(()),
            Some(PrefixForm::Activation) => {
                self.put(UnitInstr::Pnull)?;
                self.put_expr(operand, within)?;
                self.put(UnitInstr::Coact)
            }
            Some(PrefixForm::Repetition) => {
                let again = self.put_label()?;
                self.put(UnitInstr::Mark0)?;
                self.put_expr(operand, OpenMarks::Mark(&within))?;
                self.put_two(UnitInstr::Chfail(again), UnitInstr::Esusp)
            }
            Some(PrefixForm::Operation(op)) => {
                self.put_expr(operand, within)?;
                self.put(UnitInstr::Op(op))
            }
        }
    }

    // A branch behind another one, where the label before it is this.
    #[cycle(translate)]
    fn put_alternative(
        &mut self,
        branch: &'a Expr,
        label: u32,
        within: OpenMarks<'_>,
    ) -> Result<(), AllocError>
        requires { IsRoomFor (1 + numbers (tree_of branch.now)) (draft_of self.old) }
        ensures draft { OnOk result (draft_of self.new
            ≡ alternative (translate (open_of within.entry) (tree_of branch.now)) label (draft_of self.old)) }
        ensures given { OnOk result
            (TakesAtMost (1 + numbers (tree_of branch.now)) (draft_of self.old) (draft_of self.new)) }
    {
        let end = self.put_goto(label)?;
        self.put_expr(branch, within)?;
        self.put(UnitInstr::Lab(end))
    }

    /// Writes the code of an expression in a mark with a new label, where this is open in that mark. `AllocError` is want of
    /// memory.
    #[cycle(translate)]
    pub fn put_bounded(&mut self, expr: &'a Expr, marked: OpenMarks<'_>) -> Result<(), AllocError>
        requires { IsRoomFor (1 + numbers (tree_of expr.now)) (draft_of self.old) }
        ensures draft { OnOk result (draft_of self.new
            ≡ bounded_code (translate (open_of marked.entry) (tree_of expr.now)) (draft_of self.old)) }
        ensures given { OnOk result
            (TakesAtMost (1 + numbers (tree_of expr.now)) (draft_of self.old) (draft_of self.new)) }
    {
        let label = self.put_mark()?;
        self.put_expr(expr, marked)?;
        self.put_two(UnitInstr::Unmark, UnitInstr::Lab(label))
    }

    // A loop with its control expression, before its `do` part, and how it goes on with the next pass.
    #[cycle(translate)]
    fn put_control(
        &mut self,
        control: &'a Expr,
        kind: LoopKind,
        within: OpenMarks<'_>,
    ) -> Result<Pass, AllocError>
        requires { IsRoomFor (2 + numbers (tree_of control.now)) (draft_of self.old) }
        ensures pass { IfOk result (λ pass. pass_instr pass ≡ back kind (next_label (draft_of self.old))) }
        ensures draft { OnOk result (draft_of self.new ≡ control_part kind
            (translate (in_control kind (open_of within.entry)) (tree_of control.now)) (draft_of self.old)) }
        ensures given { OnOk result
            (TakesAtMost (2 + numbers (tree_of control.now)) (draft_of self.old) (draft_of self.new)) }
    {
        let looped = OpenMarks::Loop(&within);
        let marked = OpenMarks::Mark(&looped);
        match kind {
            LoopKind::While => {
                let start = self.begin_loop()?;
                self.put(UnitInstr::Mark0)?;
                self.put_expr(control, marked)?;
                self.put(UnitInstr::Unmark)?;
                Ok(Pass::At(start))
            }
            LoopKind::Until => {
                let start = self.begin_loop()?;
                let label = self.put_mark()?;
                self.put_expr(control, marked)?;
                self.put_two(UnitInstr::Unmark, UnitInstr::Efail)?;
                self.put(UnitInstr::Lab(label))?;
                Ok(Pass::At(start))
            }
            LoopKind::Every => {
                self.enter_loop(UNMENTIONED)?;
                self.put(UnitInstr::Mark0)?;
                self.put_expr(control, OpenMarks::Control(&within))?;
                self.put(UnitInstr::Pop)?;
                Ok(Pass::NextResult)
            }
        }
    }

    // The body of a loop.
    #[cycle(translate)]
    fn put_looped(
        &mut self,
        body: &'a Expr,
        kind: LoopKind,
        within: OpenMarks<'_>,
    ) -> Result<(), AllocError>
        requires { IsRoomFor (1 + numbers (tree_of body.now)) (draft_of self.old) }
        ensures draft { OnOk result (draft_of self.new
            ≡ looped_body (translate (Marked (in_body kind (open_of within.entry))) (tree_of body.now))
            (draft_of self.old)) }
        ensures given { OnOk result
            (TakesAtMost (1 + numbers (tree_of body.now)) (draft_of self.old) (draft_of self.new)) }
    {
        let looped = in_body(kind, &within);
        self.put_next_mark()?;
        self.put_expr(body, OpenMarks::Mark(&looped))?;
        self.put(UnitInstr::Unmark)
    }

    // A co-expression.
    #[cycle(translate)]
    fn put_created(&mut self, body: &'a Expr) -> Result<(), AllocError>
        requires { IsRoomFor (2 + numbers (tree_of body.now)) (draft_of self.old) }
        ensures draft { OnOk result (draft_of self.new
            ≡ create_code (translate OutermostOpen (tree_of body.now)) (draft_of self.old)) }
        ensures given { OnOk result
            (TakesAtMost (2 + numbers (tree_of body.now)) (draft_of self.old) (draft_of self.new)) }
    {
        let outer = self.put_create()?;
        let inner = self.put_mark()?;
        self.put_expr(body, OpenMarks::Outermost)?;
        self.end_created(inner, outer)
    }

    // Operands in a row.
    #[cycle(translate)]
    fn put_operands(&mut self, exprs: &'a [Expr], within: OpenMarks<'_>) -> Result<(), AllocError>
        requires { IsRoomFor (all_numbers (all_of exprs.now)) (draft_of self.old) }
        ensures draft { OnOk result
            (draft_of self.new ≡ operands (open_of within.entry) (all_of exprs.now) (draft_of self.old)) }
        ensures given { OnOk result
            (TakesAtMost (all_numbers (all_of exprs.now)) (draft_of self.old) (draft_of self.new)) }
    {
        for expr in exprs {
            self.put_expr(expr, within)?;
        }
        Ok(())
    }

    // The elements of a list, and how many they are.
    #[cycle(translate)]
    fn put_arguments(&mut self, exprs: &'a [Expr], within: OpenMarks<'_>) -> Result<u32, AllocError>
        requires { IsRoomFor (all_numbers (all_of exprs.now)) (draft_of self.old) }
        ensures count { IfOk result (λ count. count ≡ elements (all_of exprs.now)) }
        ensures draft { OnOk result
            (draft_of self.new ≡ arguments (open_of within.entry) (all_of exprs.now) (draft_of self.old)) }
        ensures given { OnOk result
            (TakesAtMost (all_numbers (all_of exprs.now)) (draft_of self.old) (draft_of self.new)) }
    {
        if is_no_element(exprs) {
            return Ok(0);
        }
        self.put_operands(exprs, within)?;
        let count = count_operand(exprs.len());
        Ok(count)
    }

    // A co-expression of each element of a list, and how many they are.
    #[cycle(translate)]
    fn put_creations(&mut self, exprs: &'a [Expr]) -> Result<u32, AllocError>
        requires { IsRoomFor (all_numbers (all_of exprs.now)) (draft_of self.old) }
        ensures count { IfOk result (λ count. count ≡ elements (all_of exprs.now)) }
        ensures draft { OnOk result (draft_of self.new ≡ creations (all_of exprs.now) (draft_of self.old)) }
        ensures given { OnOk result
            (TakesAtMost (all_numbers (all_of exprs.now)) (draft_of self.old) (draft_of self.new)) }
    {
        if is_no_element(exprs) {
            return Ok(0);
        }
        self.put_other_creations(exprs)?;
        let count = count_operand(exprs.len());
        Ok(count)
    }

    // Co-expressions in a row.
    #[cycle(translate)]
    fn put_other_creations(&mut self, exprs: &'a [Expr]) -> Result<(), AllocError>
        requires { IsRoomFor (all_numbers (all_of exprs.now)) (draft_of self.old) }
        ensures draft { OnOk result
            (draft_of self.new ≡ other_creations (all_of exprs.now) (draft_of self.old)) }
        ensures given { OnOk result
            (TakesAtMost (all_numbers (all_of exprs.now)) (draft_of self.old) (draft_of self.new)) }
    {
        for expr in exprs {
            self.put_created(expr)?;
        }
        Ok(())
    }

    // Expressions with `pop` between them.
    #[cycle(translate)]
    fn put_conjunction(
        &mut self,
        exprs: &'a [Expr],
        within: OpenMarks<'_>,
    ) -> Result<(), AllocError>
        requires { IsRoomFor (all_numbers (all_of exprs.now)) (draft_of self.old) }
        ensures draft { OnOk result
            (draft_of self.new ≡ conjunction (open_of within.entry) (all_of exprs.now) (draft_of self.old)) }
        ensures given { OnOk result
            (TakesAtMost (all_numbers (all_of exprs.now)) (draft_of self.old) (draft_of self.new)) }
    {
        let Some((first, others)) = exprs.split_first() else {
            return Ok(());
        };
        self.put_expr(first, within)?;
        for other in others {
            self.put(UnitInstr::Pop)?;
            self.put_expr(other, within)?;
        }
        Ok(())
    }

    // The expressions of a compound.
    #[cycle(translate)]
    fn put_compound(&mut self, exprs: &'a [Expr], within: OpenMarks<'_>) -> Result<(), AllocError>
        requires { IsRoomFor (all_numbers (all_of exprs.now)) (draft_of self.old) }
        ensures draft { OnOk result
            (draft_of self.new ≡ compound (open_of within.entry) (all_of exprs.now) (draft_of self.old)) }
        ensures given { OnOk result
            (TakesAtMost (all_numbers (all_of exprs.now)) (draft_of self.old) (draft_of self.new)) }
    {
        for (place, expr) in exprs.iter().enumerate() {
            self.put_part(expr, place + 1 == exprs.len(), within)?;
        }
        Ok(())
    }

    // An expression of a compound, which may be the last one.
    #[cycle(translate)]
    fn put_part(
        &mut self,
        expr: &'a Expr,
        is_last: bool,
        within: OpenMarks<'_>,
    ) -> Result<(), AllocError>
        requires { IsRoomFor (1 + numbers (tree_of expr.now)) (draft_of self.old) }
        ensures draft { OnOk result (draft_of self.new ≡ either_step is_last
            (translate (open_of within.entry) (tree_of expr.now)) (unless_empty (tree_of expr.now)
            (bounded_code (translate (Marked (open_of within.entry)) (tree_of expr.now))))
            (draft_of self.old)) }
        ensures given { OnOk result
            (TakesAtMost (1 + numbers (tree_of expr.now)) (draft_of self.old) (draft_of self.new)) }
    {
        if is_last {
            return self.put_expr(expr, within);
        }
        if is_empty(expr) {
            return Ok(());
        }
        self.put_bounded(expr, OpenMarks::Mark(&within))
    }

    // Subscripts in a row.
    #[cycle(translate)]
    fn put_subscripts(&mut self, exprs: &'a [Expr], within: OpenMarks<'_>) -> Result<(), AllocError>
        requires { IsRoomFor (all_numbers (all_of exprs.now)) (draft_of self.old) }
        ensures draft { OnOk result
            (draft_of self.new ≡ subscripts (open_of within.entry) (all_of exprs.now) (draft_of self.old)) }
        ensures given { OnOk result
            (TakesAtMost (all_numbers (all_of exprs.now)) (draft_of self.old) (draft_of self.new)) }
    {
        for expr in exprs {
            self.put_expr(expr, within)?;
            self.put(UnitInstr::Op(Op::Subscript))?;
        }
        Ok(())
    }

    // The clauses of a `case`, behind its subject.
    #[cycle(translate)]
    fn put_clauses(
        &mut self,
        clauses: &'a [Clause],
        within: OpenMarks<'_>,
    ) -> Result<(), AllocError>
        requires { IsRoomFor (1 + clause_numbers (all_clauses_of clauses.now)) (draft_of self.old) }
        ensures draft { OnOk result
            (draft_of self.new ≡ case_of (guarded_part (open_of within.entry) (all_clauses_of clauses.now))
            (default_part (open_of within.entry) (all_clauses_of clauses.now)) (draft_of self.old)) }
        ensures given { OnOk result
            (TakesAtMost (1 + clause_numbers (all_clauses_of clauses.now)) (draft_of self.old)
            (draft_of self.new)) }
    {
        self.enter_case(None)?;
        self.put_guarded(clauses, within)?;
        self.put(UnitInstr::Pop)?;
        self.put_default(clauses, within)?;
        self.end_case()
    }

    // The clauses but the default.
    #[cycle(translate)]
    fn put_guarded(
        &mut self,
        clauses: &'a [Clause],
        within: OpenMarks<'_>,
    ) -> Result<(), AllocError>
        requires { IsRoomFor (guarded_numbers (all_clauses_of clauses.now)) (draft_of self.old) }
        ensures draft { OnOk result (draft_of self.new
            ≡ guarded_part (open_of within.entry) (all_clauses_of clauses.now) (draft_of self.old)) }
        ensures given { OnOk result
            (TakesAtMost (guarded_numbers (all_clauses_of clauses.now)) (draft_of self.old)
            (draft_of self.new)) }
    {
        for clause in clauses {
            self.put_guarded_clause(clause, within)?;
        }
        Ok(())
    }

    #[cycle(translate)]
    fn put_guarded_clause(
        &mut self,
        clause: &'a Clause,
        within: OpenMarks<'_>,
    ) -> Result<(), AllocError>
        requires { IsRoomFor (guard_numbers (clause_of clause.now)) (draft_of self.old) }
        ensures draft { OnOk result (draft_of self.new
            ≡ guarded_clause (open_of within.entry) (clause_of clause.now) (draft_of self.old)) }
        ensures given { OnOk result
            (TakesAtMost (guard_numbers (clause_of clause.now)) (draft_of self.old) (draft_of self.new)) }
    {
        match clause {
            Clause::Default { .. } => Ok(()),
            Clause::Guarded { guard, value, .. } => {
                let label = self.put_mark()?;
                self.put(UnitInstr::Ccase)?;
                self.put_expr(guard, OpenMarks::Mark(&within))?;
                self.put_two(UnitInstr::Op(Op::Equivalent), UnitInstr::Unmark)?;
                self.put(UnitInstr::Pop)?;
                self.put_expr(value, within)?;
                self.put_end_goto()?;
                self.put(UnitInstr::Lab(label))
            }
        }
    }

    // The first default, or `efail`.
    #[cycle(translate)]
    fn put_default(
        &mut self,
        clauses: &'a [Clause],
        within: OpenMarks<'_>,
    ) -> Result<(), AllocError>
        requires { IsRoomFor (default_numbers (all_clauses_of clauses.now)) (draft_of self.old) }
        ensures draft { OnOk result (draft_of self.new
            ≡ default_part (open_of within.entry) (all_clauses_of clauses.now) (draft_of self.old)) }
        ensures given { OnOk result
            (TakesAtMost (default_numbers (all_clauses_of clauses.now)) (draft_of self.old)
            (draft_of self.new)) }
    {
        for clause in clauses {
            if let Clause::Default { value, .. } = clause {
                return self.put_expr(value, within);
            }
        }
        self.put(UnitInstr::Efail)
    }
}

/// Whether an expression is empty.
pub fn is_empty(expr: &Expr) -> bool
    ensures { result ≡ is_empty (tree_of expr.now) }
{
    matches!(expr, Expr::Empty)
}

// Whether a list is one empty expression, and so has no element.
fn is_no_element(exprs: &[Expr]) -> bool
    ensures { result ≡ is_no_element (all_of exprs.now) }
{
    let Some((first, others)) = exprs.split_first() else {
        return false;
    };
    if !is_empty(first) {
        return false;
    }
    others.is_empty()
}

// What is open in the body of a loop.
fn in_body<'a>(kind: LoopKind, within: &'a OpenMarks<'a>) -> OpenMarks<'a>
    ensures { open_of result ≡ in_body kind (open_of within.now) }
{
    match kind {
        LoopKind::While | LoopKind::Until => OpenMarks::Loop(within),
        LoopKind::Every => OpenMarks::Each(within),
    }
}
