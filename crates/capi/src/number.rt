// The number that a C function returns: what was accepted, none, where a collector stands, or a refusal.
ghost use Rattle.std.specs.Prelude.{◌≡◌};
ghost use Rattle.base.specs.Refusal as spec;
ghost use Rattle.base.specs.Refusal.{said};
ghost use Rattle.capi.specs.Number.{code, plain, standing};

use base::refusal::Refusal;
use collector::Status;

// Three numbers that no count and no length is: no slice is as long.
const REFUSED: u64 = 0x8000_0000_0000_0000;

// Document 01's "answers none".
pub(crate) const NONE: u64 = 0x4000_0000_0000_0000;

const MISSING: u64 = 0x2000_0000_0000_0000;

// The most that fits above a refusal's number: a place beyond it counts as this one.
const CARRIED_LIMIT: usize = 0x7F_FFFF_FFFF_FFFF;

pub(crate) fn refused(refusal: Refusal) -> u64
    ensures { result ≡ code (spec.refusal refusal) }
{
    let number = REFUSED + (refusal.number() as u64);
    let carried = refusal.carried();
    if CARRIED_LIMIT < carried {
        return number + 256 * (CARRIED_LIMIT as u64);
    }
    number + 256 * (carried as u64)
}

pub(crate) fn code(written: Result<usize, Refusal>) -> u64
    ensures { result ≡ code (said written) }
{
    match written {
        Ok(length) => length as u64,
        Err(refusal) => refused(refusal),
    }
}

pub(crate) fn verdict_code(verdict: Result<(), Refusal>) -> u64
    ensures { result ≡ code (plain (said verdict)) }
{
    match verdict {
        Ok(()) => 0,
        Err(refusal) => refused(refusal),
    }
}

pub(crate) fn status_code(status: Result<Status, Refusal>) -> u64
    ensures { result ≡ code (standing (said status)) }
{
    match status {
        Ok(Status::Complete(length)) => length as u64,
        Ok(Status::Missing(index)) => MISSING + (index as u64),
        Err(refusal) => refused(refusal),
    }
}
