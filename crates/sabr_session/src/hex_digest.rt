//! A digest as text.

ghost use Rattle.std.specs.Prelude.{◌≡◌};
ghost use Rattle.hex.specs.Hex.{encode_lower};

use hex::encode_to_slice;

/// Returns a digest as 64 hexadecimal digits, two for each byte, with letters in lower case.
pub fn digest_text(digest: &[u8; 32]) -> [u8; 64]
    ensures { result ≡ encode_lower digest.now }
{
    let mut text = [0; 64];
    let Ok(()) = encode_to_slice(*digest, &mut text) else {
        unreachable!()
    };
    text
}
