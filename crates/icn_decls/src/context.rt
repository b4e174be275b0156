// What stands round a place of a procedure.
ghost use Rattle.std.specs.Prelude.{◌≡◌, Some};
ghost use Rattle.icn_decls.specs.Contexts.{result_faults, break_faults, next_faults, leave_loop, loopless, outermost, create_context};
ghost use Rattle.icn_decls.specs.Views.{context_of, first_of, fault_of};

use crate::fault::Broken;
use icn_tree::{Place, Rule};

// The loops round a place up to a `create` or the procedure, the innermost first: each by whether `next` may stand there.
#[derive(Clone, Copy)]
pub enum Loops<'a> {
    None,
    Inside(bool, &'a Loops<'a>),
}

// Whether a place stands in a `create`, and the loops round it up to that or the procedure.
#[derive(Clone, Copy)]
pub struct Context<'a> {
    pub in_create: bool,
    pub loops: &'a Loops<'a>,
}

static NO_LOOPS: Loops<'static> = Loops::None;

impl<'a> Context<'a> {
    /// What stands round the body of a procedure.
    pub fn outermost() -> Self
        ensures { context_of result ≡ outermost }
    {
        Context {
            in_create: false,
            loops: &NO_LOOPS,
        }
    }

    /// What stands round the operand of a `create`.
    pub fn create_operand() -> Self
        ensures { context_of result ≡ create_context }
    {
        Context {
            in_create: true,
            loops: &NO_LOOPS,
        }
    }

    /// The first rule that `return`, `fail` or `suspend` breaks here.
    pub fn check_result(self, place: Place) -> Result<(), Broken>
        ensures { fault_of result ≡ first_of (result_faults (context_of self.entry) place) }
    {
        if self.in_create {
            return Err(Broken::at(place, Rule::C4));
        }
        Ok(())
    }

    /// Whether a `break` may stand here. The error is the rule that it breaks.
    pub fn check_break(self, place: Place) -> Result<(), Broken>
        ensures { fault_of result ≡ first_of (break_faults (context_of self.entry) place) }
    {
        match self.loops {
            Loops::None => Err(self.no_loop(Rule::C2, place)),
            Loops::Inside(..) => Ok(()),
        }
    }

    /// Whether a `next` may stand here. The error is the rule that it breaks.
    pub fn check_next(self, place: Place) -> Result<(), Broken>
        ensures { fault_of result ≡ first_of (next_faults (context_of self.entry) place) }
    {
        match self.loops {
            Loops::None => Err(self.no_loop(Rule::C3, place)),
            Loops::Inside(true, _) => Ok(()),
            Loops::Inside(false, _) => Err(Broken::at(place, Rule::C3)),
        }
    }

    // A word of loops with no loop to belong to.
    fn no_loop(self, rule: Rule, place: Place) -> Broken
        ensures { Some (record { rule = result.rule; place = result.place })
            ≡ first_of (loopless self.entry.in_create rule place) }
    {
        if self.in_create {
            Broken::at(place, Rule::C4)
        } else {
            Broken::at(place, rule)
        }
    }

    /// What stands round the operand of a `break`.
    pub fn break_operand(self) -> Context<'a>
        ensures { context_of result ≡ leave_loop (context_of self.entry) }
    {
        let loops = match self.loops {
            Loops::None => self.loops,
            Loops::Inside(_, around) => around,
        };
        Context {
            in_create: self.in_create,
            loops,
        }
    }
}
