// Every writer puts its message at the start of a lent buffer by `place`.
ghost use Rattle.std.specs.Prelude.{◌++◌};
ghost use Rattle.base.specs.Outcome.{accepted};
ghost use Rattle.base.specs.Written.{Writes};

use crate::refusal::Refusal;

pub fn place(message: &[u8], out: &mut [u8]) -> Result<usize, Refusal>
    ensures { Writes (accepted message.now) result out.old out.new }
{
    if out.len() < message.len() {
        return Err(Refusal::NoRoom);
    }
    // Byte by byte: of a message that is lent too the library's copy is a call of memmove, a name that the archive for C does not
    // need from outside.
    for i in 0..message.len() {
        out[i] = message[i];
    }
    Ok(message.len())
}

// Two parts of a message, one behind the other.
pub fn join(first: &[u8], second: &[u8], out: &mut [u8]) -> Result<usize, Refusal>
    ensures { Writes (accepted (first.now ++ second.now)) result out.old out.new }
{
    let at = first.len();
    if out.len() < at {
        return Err(Refusal::NoRoom);
    }
    if out.len() - at < second.len() {
        return Err(Refusal::NoRoom);
    }
    out[..at].copy_from_slice(first);
    let end = at + second.len();
    out[at..end].copy_from_slice(second);
    Ok(end)
}
