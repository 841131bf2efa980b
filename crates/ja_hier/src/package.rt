ghost use Rattle.std.specs.Prelude.{◌≡◌, ◌≤◌, ◌↔◌, ℕ, ◌==◌, if◌then◌else◌, length, take, IsTrue};
ghost use Rattle.ja_hier.specs.Faults.{package_of};

use ja_base::Name;

/// The length of the package in the name of a class.
fn package_len(name: &[u8]) -> usize
    ensures within { result ≤ length name.now }
    ensures value { take result name.now ≡ package_of name.now }
{
    let mut len = 0;
    for (i, byte) in name.iter().enumerate() {
        len = len_after(len, i, *byte);
    }
    len
}

/// The length of the package after one byte more of the name.
fn len_after(len: usize, i: usize, byte: u8) -> usize
    ensures { result ≡ (if byte == 47 then i else len) }
{
    if byte == b'/' { i } else { len }
}

/// Whether two classes are of one package (JVM specification 5.3).
pub fn same_package(a: &Name, b: &Name) -> bool
    ensures { IsTrue result ↔ (package_of a.now ≡ package_of b.now) }
{
    let a = a.bytes();
    let b = b.bytes();
    a[..package_len(a)] == b[..package_len(b)]
}
