// Taking bytes from the input.
ghost use Rattle.std.specs.Prelude.{◌≡◌, IfOk, IfSome, OnErr, IsErrOf};
ghost use Rattle.icn_defs.specs.Interruptions.{LosesPart, asked_of};
ghost use Rattle.icn_host.specs.Counts.{CountsOnce, one_more};
ghost use Rattle.icn_value.specs.Store.{ALine, SomeBytes};
ghost use Rattle.icn_streams.specs.Readings.{Fills, FillsOfSome, asked_in};

use crate::ask::Ask;
use icn_host::{Fault, LineEnd, Source};

/// Fills the buffer with what is asked for, and answers whether there was something. The error is `Failed` where the input
/// failed in this call, else `NoMemory`; some first part of what is asked for was taken then.
pub fn fill<I: Source>(ask: Ask, input: &mut I, buffer: &mut Vec<u8>) -> Result<bool, Fault>
    ensures ok { IfOk result (λ there. IfSome (I.left input.old)
        (λ left. Fills (asked_in ask) left there buffer.new.items (I.left input.new))) }
    ensures some { IfOk result (λ there. FillsOfSome (asked_in ask) there buffer.new.items) }
    ensures err { OnErr result (IfSome (I.left input.old)
        (λ left. LosesPart left (asked_of (asked_in ask) left) (I.left input.new))) }
    ensures cause { CountsOnce (I.counts input.old).faults (I.counts input.new).faults
        (IsErrOf result Fault.Failed) }
    ensures want { CountsOnce (I.counts input.old).wants (I.counts input.new).wants
        (IsErrOf result Fault.NoMemory) }
    ensures called { (I.counts input.new).calls ≡ one_more (I.counts input.old).calls }
{
    match ask {
        Ask::Line => fill_line(input, buffer),
        Ask::Bytes(count) => fill_bytes(count, input, buffer),
    }
}

fn fill_line<I: Source>(input: &mut I, buffer: &mut Vec<u8>) -> Result<bool, Fault>
    ensures ok { IfOk result (λ there.
        IfSome (I.left input.old) (λ left. Fills ALine left there buffer.new.items (I.left input.new))) }
    ensures some { IfOk result (λ there. FillsOfSome ALine there buffer.new.items) }
    ensures err { OnErr result
        (IfSome (I.left input.old) (λ left. LosesPart left (asked_of ALine left) (I.left input.new))) }
    ensures cause { CountsOnce (I.counts input.old).faults (I.counts input.new).faults
        (IsErrOf result Fault.Failed) }
    ensures want { CountsOnce (I.counts input.old).wants (I.counts input.new).wants
        (IsErrOf result Fault.NoMemory) }
    ensures called { (I.counts input.new).calls ≡ one_more (I.counts input.old).calls }
{
    buffer.clear();
    let line = input.line(buffer)?;
    Ok(line != LineEnd::End)
}

fn fill_bytes<I: Source>(count: u64, input: &mut I, buffer: &mut Vec<u8>) -> Result<bool, Fault>
    ensures ok { IfOk result (λ there. IfSome (I.left input.old)
        (λ left. Fills (SomeBytes count) left there buffer.new.items (I.left input.new))) }
    ensures some { IfOk result (λ there. FillsOfSome (SomeBytes count) there buffer.new.items) }
    ensures err { OnErr result (IfSome (I.left input.old)
        (λ left. LosesPart left (asked_of (SomeBytes count) left) (I.left input.new))) }
    ensures cause { CountsOnce (I.counts input.old).faults (I.counts input.new).faults
        (IsErrOf result Fault.Failed) }
    ensures want { CountsOnce (I.counts input.old).wants (I.counts input.new).wants
        (IsErrOf result Fault.NoMemory) }
    ensures called { (I.counts input.new).calls ≡ one_more (I.counts input.old).calls }
{
    buffer.clear();
    let taken = input.take(count, buffer)?;
    Ok(taken > 0)
}
