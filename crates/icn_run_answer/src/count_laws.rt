// Laws of counts.
ghost use Rattle.icn_streams.specs.Handed.{CallStreams};
ghost use Rattle.icn_answer.specs.declared.answer.Answer.{Answer};
ghost use Rattle.icn_run_answer.specs.CountCauses.{RunEndsAtFirst};
ghost use Rattle.icn_run_answer.specs.CountsRise.{HaveBits, NoneFalls};

/// Where the counts have 64 bits, none falls in a call that ends at its first fault.
pub fn counts_stay()
    ensures { (answer : Answer) (before after : CallStreams) → HaveBits before
        → RunEndsAtFirst answer before after → NoneFalls before after }
{}
