// Arrays of bytes put together.
ghost use Rattle.std.specs.Prelude.{◌≡◌, ◌+◌, ◌++◌, length};

// The one before the other.
pub fn joined<const N: usize>(a: &[u8], b: &[u8]) -> [u8; N]
    requires { length a.now + length b.now ≡ N }
    ensures { result ≡ a.now ++ b.now }
{
    let mut both = [0; N];
    let (first, second) = both.split_at_mut(a.len());
    first.copy_from_slice(a);
    second.copy_from_slice(b);
    both
}
