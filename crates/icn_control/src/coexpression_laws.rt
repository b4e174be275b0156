// Laws of the machine.
ghost use Rattle.icn_coexp.specs.Transfers.{CoexpTable};
ghost use Rattle.icn_run.specs.Stacks.{Frames};
ghost use Rattle.icn_control.specs.TransfersRead.{Beside, TransfersAreRead};
ghost use Rattle.icn_control.specs.Creations.{CreationsAreRead};

/// Each transfer between co-expressions, on a table that is read, is the transfer of the definitions.
pub fn transfers_are_read()
    ensures { (beside : Beside) (t u : CoexpTable) (m : Frames) → TransfersAreRead beside t u m }
{}

/// What `create` and `refresh` add to a table, read, is what the definitions add: a new co-expression with the present values
/// of the locals, or with those of another one's creation.
pub fn creations_are_read()
    ensures { (beside : Beside) (t : CoexpTable) (n : Frames) → CreationsAreRead beside t n }
{}
