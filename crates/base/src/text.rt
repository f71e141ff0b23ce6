// Parts of texts.
ghost use Rattle.std.specs.Prelude.{◌≡◌};
ghost use Rattle.base.specs.Outcome.{accepted};
ghost use Rattle.base.specs.Text.{coded, digit};
ghost use Rattle.base.specs.Written.{Writes};

use crate::refusal::Refusal;
use crate::written::join;

const DIGITS: [u8; 16] = *b"0123456789ABCDEF";

// The hexadecimal digit of the low four bits.
pub fn digit(n: u8) -> u8
    ensures { result ≡ digit n }
{
    DIGITS[(n % 16) as usize]
}

// A value that has no name of its own.
pub fn coded(name: &[u8], value: u8, out: &mut [u8]) -> Result<usize, Refusal>
    ensures { Writes (accepted (coded name.now value)) result out.old out.new }
{
    let mut code = *b" (0x00)";
    code[4] = digit(value / 16);
    code[5] = digit(value);
    join(name, &code, out)
}
