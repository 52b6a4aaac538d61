// Arrays that a command makes.
ghost use Rattle.std.specs.Prelude.{◌≡◌, ◌++◌, ◌↔◌, ◌+◌, ◌≤◌, ◌<◌, length, IsTrue};
ghost use Rattle.one_statement.specs.Made.{made_name};

use chill_base::Name;
use nest_tree::Kernel;

/// The most arrays that the commands on a kernel can make.
const MOST_ARRAYS: usize = 384;

/// The longest name.
const MOST_BYTES: usize = 63;

/// The prefix with these bytes behind it; none where that is no name, being too long.
pub fn made_name(prefix: Name, suffix: &[u8]) -> Option<Name>
    ensures { result ≡ made_name prefix suffix.now }
{
    let front = prefix.bytes();
    if suffix.len() > MOST_BYTES - front.len() {
        return None;
    }
    let mut bytes = [0; MOST_BYTES];
    let length = front.len() + suffix.len();
    bytes[..front.len()].copy_from_slice(front);
    bytes[front.len()..length].copy_from_slice(suffix);
    Name::new(&bytes[..length])
}

/// Whether the kernel has room for so many arrays more.
pub fn has_room(kernel: &Kernel, arrays: usize) -> bool
    ensures { IsTrue result ↔ (length kernel.now.made + arrays ≤ 384) }
{
    kernel.made.len() <= MOST_ARRAYS && arrays <= MOST_ARRAYS - kernel.made.len()
}
