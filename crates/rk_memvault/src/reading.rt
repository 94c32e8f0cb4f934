// Reading from bytes in memory.
ghost use Rattle.std.specs.Prelude.{◌≡◌, ◌≤◌, length, drop};
ghost use Rattle.rk_outside.specs.Vaults.{Fills};

// Fills the front of `out` with the bytes from a place on, as many as there are, and answers how many.
pub(crate) fn fill_from(bytes: &[u8], at: u64, out: &mut [u8]) -> usize
    ensures bound { result ≤ length out.new }
    ensures bytes { Fills bytes.now at out.new result }
    ensures rest { drop result out.new ≡ drop result out.old }
{
    let from = (at as usize).min(bytes.len());
    let left = &bytes[from..];
    let count = left.len().min(out.len());
    out[..count].copy_from_slice(&left[..count]);
    count
}
