// What holds of each run of verified code.
ghost use Rattle.std.specs.Prelude.{◌≡◌, true};
ghost use Rattle.icn_code.specs.Codes.{Tables};
ghost use Rattle.icn_code.specs.Rules.{keeps_rules};
ghost use Rattle.icn_defs.specs.Running.{Launch};
ghost use Rattle.icn_verify.specs.Faults.{IsVerified};
ghost use Rattle.icn_running.specs.Runs.{RunHolds};

use law_safe::{cases_stand, each_step_falls, never_stuck_over_any_outside, runs_end};
use law_steps::{start_is_named, start_is_sized, variables_stay};

/// From its start on nothing ever lacks in a run of verified code, its steps fall, and it has an end.
pub fn runs_hold()
    ensures { (tables : Tables) → keeps_rules tables ≡ true → IsVerified tables → (launch : Launch)
        → RunHolds tables launch }
{
    never_stuck_over_any_outside();
    cases_stand();
    variables_stay();
    start_is_named();
    start_is_sized();
    each_step_falls();
    runs_end();
}
