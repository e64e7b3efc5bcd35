//! SHA-256 of four messages at once: each word of the hash is a vector with a lane for each message.
#![tactic(auto)]

mod block;
mod rounds;
mod words;

ghost use Rattle.std.specs.Prelude.{◌≡◌, ◌∷◌, map};
ghost use Rattle.sha2.specs.Sha256.{sha256};

use block::{compress, digest_of, start};

/// The SHA-256 digests of four messages of 513 bytes: each is the byte `first` and 512 more.
#[inline(never)]
pub fn digests(first: u8, rest: &[[u8; 512]; 4]) -> [[u8; 32]; 4]
    ensures { result ≡ map (λ bytes. sha256 (first ∷ bytes)) rest.now }
{
    let mut state = start();
    for n in 0..9usize {
        let blocks = [
            block::of(first, &rest[0], n),
            block::of(first, &rest[1], n),
            block::of(first, &rest[2], n),
            block::of(first, &rest[3], n),
        ];
        compress(&mut state, &blocks);
    }
    [
        digest_of(&state, 0),
        digest_of(&state, 1),
        digest_of(&state, 2),
        digest_of(&state, 3),
    ]
}
