//! Laws of the run of a code: its runs on flat stacks and on linked marks agree, each run ends, and what suspending, resuming and activating leave.
#![tactic(auto)]

ghost use Rattle.std.specs.Prelude.{ℕ, Bool, List};
ghost use Rattle.icn_code.specs.Codes.{Tables};
ghost use Rattle.law_stacks.specs.SecondLaw.{MissingCell, RunsAgree, RunsAgreeAt};
ghost use Rattle.icn_run.specs.LinkedStep.{repeats_anywhere};
ghost use Rattle.icn_run.specs.LinkedStep as Linked;
ghost use Rattle.icn_run.specs.FlatStep as Flat;
ghost use Rattle.icn_run.specs.Stacks.{flat};
ghost use Rattle.icn_run.specs.Chains.{linked_calls};
ghost use Rattle.icn_run.specs.Step.{Program, Launch};
ghost use Rattle.law_stacks.specs.Measure.{Forward, EndsFrom};
ghost use Rattle.law_stacks.specs.OthersStay.{OthersStay};
ghost use Rattle.law_stacks.specs.StackLaws.{Suspends, Resumes, Unmarks};

/// The run of any code on flat stacks and its run on linked marks agree, whatever procedures no text names.
pub fn second_law()
    ensures everywhere { (hidden : List ℕ) (tables : Tables) (launch : Launch)
        → RunsAgree repeats_anywhere hidden tables launch }
    ensures covered { (repeats : ℕ → ℕ → Bool) (hidden : List ℕ) (tables : Tables) (launch : Launch)
        → (MissingCell repeats hidden tables launch → ⊥) → RunsAgree repeats hidden tables launch }
    ensures told { (repeats : ℕ → ℕ → Bool) (hidden : List ℕ) (tables : Tables) (launch : Launch)
        → RunsAgreeAt repeats hidden tables launch }
{}

/// Every run ends by its bound on turns, where the labels of marks, `goto` and `init` lie behind their instruction.
pub fn runs_end()
    ensures on_stacks { (most : ℕ) (code : Program) → Forward most code → (hidden : List ℕ) (launch : Launch)
        → EndsFrom flat code (Flat.start_hiding code hidden launch) }
    ensures on_marks { (repeats : ℕ → ℕ → Bool) (most : ℕ) (code : Program) → Forward most code
        → (hidden : List ℕ) (launch : Launch)
        → EndsFrom (linked_calls repeats) code (Linked.start_hiding repeats code hidden launch) }
{}

/// An instruction that passes no control to another co-expression leaves what waits of each, its activator and its status as they were, and no co-expression
/// is added but by `create` and by refreshing: one that has the present locals, or what the old one was made with. The stack of one that waits is, on linked
/// marks, its chain.
pub fn others_stay()
    ensures on_stacks { (code : Program) → OthersStay flat code }
    ensures on_marks { (repeats : ℕ → ℕ → Bool) (code : Program) → OthersStay (linked_calls repeats) code }
{}

/// What suspending, resuming and dropping a mark do to any flat stack.
pub fn suspensions_hold()
    ensures suspends { Suspends }
    ensures resumes { Resumes }
    ensures unmarks { Unmarks }
{}
