//! Verified code is never stuck, and each of its runs ends, step by step.
#![tactic(auto)]

ghost use Rattle.std.specs.Prelude.{◌≡◌, true};
ghost use Rattle.icn_code.specs.Codes.{Tables};
ghost use Rattle.icn_code.specs.Rules.{keeps_rules};
ghost use Rattle.icn_verify.specs.Faults.{IsVerified};
ghost use Rattle.icn_verify.specs.Given.{HaveShapes};
ghost use Rattle.icn_run.specs.Step.{Launch};
ghost use Rattle.icn_run.specs.FlatStep as flat;
ghost use Rattle.law_safe.specs.Within.{RowsStayWithin};
ghost use Rattle.law_safe.specs.Ended.{AreOver};
ghost use Rattle.law_safe.specs.StateFacts.{AreShaped, HasFacts, shapes_of};
ghost use Rattle.law_safe.specs.NoStuck.{IsNeverStuck, IsNeverStuckOver};
ghost use Rattle.law_safe.specs.CaseMarks.{CasesStandOver};
ghost use Rattle.law_safe.specs.StepMeasure.{EachStepFalls};

/// No run of verified code lacks what an instruction needs.
pub fn never_stuck()
    ensures verified { (tables : Tables) → keeps_rules tables ≡ true → IsVerified tables
        → IsNeverStuck tables }
    ensures shaped { (tables : Tables) → keeps_rules tables ≡ true → HaveShapes tables → IsNeverStuck tables }
{}

/// Nor does one on flat stacks, whatever the outside is before each of its steps: so it is where the input tells nothing of what
/// it has left.
pub fn never_stuck_over_any_outside()
    ensures verified { (tables : Tables) → keeps_rules tables ≡ true → IsVerified tables → (launch : Launch)
        → IsNeverStuckOver tables (flat.start tables launch) }
    ensures shaped { (tables : Tables) → keeps_rules tables ≡ true → HaveShapes tables → (launch : Launch)
        → IsNeverStuckOver tables (flat.start tables launch) }
{}

/// At each state in which a run of verified code has an instruction due, the instruction finds what it wants, the stack has the shape of the address, whatever
/// shapes the verifier gave, and the procedure has all its locals. On flat stacks the shape is left unsaid where a mark is due that failure came back to.
pub fn reached_states()
    ensures verified { (tables : Tables) → keeps_rules tables ≡ true → IsVerified tables → HasFacts tables }
    ensures shaped { (tables : Tables) → keeps_rules tables ≡ true → (have : HaveShapes tables)
        → AreShaped tables (shapes_of tables have) }
{}

/// Where what a row is given names no co-expression but those that are there, nor does what it leaves and gives.
pub fn rows_stay()
    ensures within { RowsStayWithin }
{}

/// Each run of verified code is over at some time, by its bound on turns at the latest.
pub fn runs_end()
    ensures verified { (tables : Tables) → keeps_rules tables ≡ true → IsVerified tables → AreOver tables }
    ensures shaped { (tables : Tables) → keeps_rules tables ≡ true → HaveShapes tables → AreOver tables }
{}

/// Each step of a run of verified code makes one of the turns that may be made, or leaves less to do before the next turn,
/// whatever is read. So a loop over steps ends by the turns that are left, and between two turns by what is left to do.
pub fn each_step_falls()
    ensures verified { (tables : Tables) → keeps_rules tables ≡ true → IsVerified tables → (launch : Launch)
        → EachStepFalls tables launch }
    ensures shaped { (tables : Tables) → keeps_rules tables ≡ true → HaveShapes tables → (launch : Launch)
        → EachStepFalls tables launch }
{}

/// At each state of a run of verified code in which a case is about to compare, a mark is open in the procedure that runs,
/// whatever the outside is before each step.
pub fn cases_stand()
    ensures verified { (tables : Tables) → keeps_rules tables ≡ true → IsVerified tables → (launch : Launch)
        → CasesStandOver tables (flat.start tables launch) }
    ensures shaped { (tables : Tables) → keeps_rules tables ≡ true → HaveShapes tables → (launch : Launch)
        → CasesStandOver tables (flat.start tables launch) }
{}
