//! Native authentication. MySQL Source Documentation, "Client/Server Protocol", the page "Native Authentication".

ghost use Rattle.std.specs.Prelude.{◌≡◌};
ghost use Rattle.greet.specs.Native.{native_answer, xor_digests};

use sha1::Sha1;

/// The response to a scramble. It takes no memory.
///
/// Clauses:
/// - `SHA1(password) xor SHA1(scramble, SHA1(SHA1(password)))`. The empty password has an empty answer, which callers
///   must handle
pub fn native(password: &[u8], scramble: &[u8; 20]) -> [u8; 20]
    ensures { result ≡ native_answer password.now scramble.now }
{
    let stage_one = Sha1::digest(password);
    let stage_two = Sha1::digest(&stage_one);
    let mut hasher = Sha1::new();
    hasher.update(scramble);
    hasher.update(&stage_two);
    let other = hasher.finalize();
    xor(&stage_one, &other)
}

/// The exclusive or of two digests.
fn xor(a: &[u8; 20], b: &[u8; 20]) -> [u8; 20]
    ensures { result ≡ xor_digests a.now b.now }
{
    let mut mixed = [0u8; 20];
    for i in 0..20 {
        mixed[i] = a[i] ^ b[i];
    }
    mixed
}
