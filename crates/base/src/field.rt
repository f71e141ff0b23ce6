// A field of a byte is a position and a width, as in the standard's tables.
ghost use Rattle.std.specs.Prelude.{◌≡◌};
ghost use Rattle.base.specs.Field.{Bytes, bits, flag, flags, within};
ghost use Rattle.base.specs.Refusal.{said};

use crate::refusal::Refusal;

// What is lent is a string of bytes: the laws of readers and writers ask for it. A slice's elements are known from a call on.
fn lent(message: &[u8])
    ensures { Bytes message.now }
{
    bits(0, 0, 0);
}

// The `width` bits of `byte` from bit `at` up.
pub fn bits(byte: u8, at: u8, width: u8) -> u8
    ensures { result ≡ bits at width byte }
{
    if 7 < at {
        return 0;
    }
    if 7 < width {
        return byte >> at;
    }
    (byte >> at) % (1 << width)
}

// `value`, where it lies in the range of its field.
pub fn within(value: u8, first: u8, last: u8) -> Result<u8, Refusal>
    ensures { said result ≡ within first last value }
{
    if value < first {
        return Err(Refusal::NoForm);
    }
    if last < value {
        return Err(Refusal::NoForm);
    }
    Ok(value)
}

// Whether bit `at` of `byte` is set.
pub fn flag(byte: u8, at: u8) -> bool
    ensures { result ≡ flag at byte }
{
    bits(byte, at, 1) == 1
}

// A byte of flags, as the standard's tables have them: bit 7 first.
pub fn flags(b7: bool, b6: bool, b5: bool, b4: bool, b3: bool, b2: bool, b1: bool, b0: bool) -> u8
    ensures { result ≡ flags b7 b6 b5 b4 b3 b2 b1 b0 }
{
    b0 as u8
        | (b1 as u8) << 1
        | (b2 as u8) << 2
        | (b3 as u8) << 3
        | (b4 as u8) << 4
        | (b5 as u8) << 5
        | (b6 as u8) << 6
        | (b7 as u8) << 7
}
