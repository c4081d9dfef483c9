// Numbers as bytes, little-endian.
ghost use Rattle.std.specs.Prelude.{◌≡◌, ◌+◌, ◌≤◌, length};
ghost use Rattle.std.proofs.Math.Seq.{paste};
ghost use Rattle.rules.specs.Pages.{bytes16, bytes32};

// Writes bytes from a place on.
fn write<const N: usize>(part: &mut [u8], at: usize, bytes: &[u8; N])
    requires { at + N ≤ length part.old }
    ensures { part.new ≡ paste part.old at bytes.now N }
{
    part[at..at + N].copy_from_slice(bytes);
}

// Writes a number as two bytes.
pub(crate) fn write16(part: &mut [u8], at: usize, number: u16)
    requires { at + 2 ≤ length part.old }
    ensures { part.new ≡ paste part.old at (bytes16 number) 2 }
{
    write(part, at, &number.to_le_bytes());
}

// Writes a number as four bytes.
pub(crate) fn write32(part: &mut [u8], at: usize, number: u32)
    requires { at + 4 ≤ length part.old }
    ensures { part.new ≡ paste part.old at (bytes32 number) 4 }
{
    write(part, at, &number.to_le_bytes());
}
