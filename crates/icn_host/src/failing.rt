// The plan of the calls that fail.
ghost use Rattle.std.specs.Prelude.{◌≡◌, IsTrue, ◌↔◌};

// The numbers, from 0, of the calls that fail, and the number of the next call, which stays at its last value.
#[derive(Drop)]
pub struct FailingCalls {
    numbers: Vec<u64>,
    next: u64,
}

impl FailingCalls {
    ghost use Rattle.icn_host.specs.Plans.{plan_of, first_plan, later_plan, FailsNext};

    /// The plan by which the calls of these numbers fail, counted from 0. No call was made yet.
    pub fn new(numbers: Vec<u64>) -> Self
        ensures { plan_of result ≡ first_plan numbers.items }
    {
        FailingCalls { numbers, next: 0 }
    }

    /// Whether the present call fails. Moves on to the next one.
    pub fn fails_now(&mut self) -> bool
        ensures fails { IsTrue result ↔ FailsNext (plan_of self.old) }
        ensures plan { plan_of self.new ≡ later_plan (plan_of self.old) }
    {
        let call = self.next;
        self.next = call.saturating_add(1);
        self.numbers.contains(&call)
    }
}
