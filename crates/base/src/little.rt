// Numbers of several bytes, low byte first.
ghost use Rattle.std.specs.Prelude.{◌≡◌};
ghost use Rattle.base.specs.Little.{little, little_bytes};

pub fn number(bytes: [u8; 4]) -> u32
    ensures { result ≡ little bytes }
{
    u32::from_le_bytes(bytes)
}

// The low bytes of a number, as many as are asked for.
pub fn bytes<const N: usize>(n: u64) -> [u8; N]
    ensures { result ≡ little_bytes N n }
{
    let mut bytes = [0; N];
    let mut rest = n;
    for byte in &mut bytes {
        *byte = (rest % 256) as u8;
        rest /= 256;
    }
    bytes
}
