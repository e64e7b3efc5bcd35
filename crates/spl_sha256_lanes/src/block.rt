//! Four blocks side by side, and the blocks of a message of 513 bytes.

ghost use Rattle.std.specs.Prelude.{◌≡◌, ℕ, ◌+◌, ◌*◌, ◌<◌, ◌≤◌, [], ◌∷◌, length, take, drop, slice_index, slice_index_or};
ghost use Rattle.sha2.specs.Sha256.{add_state, compress, digest_bytes, initial_hash_256, padded_message, padding, word_at};
ghost use Rattle.spl_sha256_lanes.specs.Lanes.{lane};

use crate::rounds::{first_steps, steps};
use crate::words::add;
use std::simd::u32x4;

/// The initial hash value, in each lane.
#[inline(always)]
pub(crate) fn start() -> [u32x4; 8]
    ensures { (j : ℕ) → j < 4 → lane j result ≡ initial_hash_256 }
{
    [
        u32x4::splat(0x6a09_e667),
        u32x4::splat(0xbb67_ae85),
        u32x4::splat(0x3c6e_f372),
        u32x4::splat(0xa54f_f53a),
        u32x4::splat(0x510e_527f),
        u32x4::splat(0x9b05_688c),
        u32x4::splat(0x1f83_d9ab),
        u32x4::splat(0x5be0_cd19),
    ]
}

/// A word of a block.
#[inline(always)]
fn word(block: &[u8; 64], at: usize) -> u32
    requires { at + 4 ≤ 64 }
    ensures { result ≡ word_at block.now at }
{
    u32::from_be_bytes([block[at], block[at + 1], block[at + 2], block[at + 3]])
}

/// A word of each block.
#[inline(always)]
fn words(blocks: &[[u8; 64]; 4], at: usize) -> u32x4
    requires { at + 4 ≤ 64 }
    ensures { (j : ℕ) → j < 4 → slice_index result j ≡ word_at (slice_index_or blocks.now j []) at }
{
    u32x4::from_array([
        word(&blocks[0], at),
        word(&blocks[1], at),
        word(&blocks[2], at),
        word(&blocks[3], at),
    ])
}

/// Runs the 64 rounds over a block of each message, and adds the results to `state`.
#[inline(never)]
pub(crate) fn compress(state: &mut [u32x4; 8], blocks: &[[u8; 64]; 4])
    ensures { (j : ℕ) → j < 4 → lane j state.new ≡ compress (lane j state.old) (slice_index_or blocks.now j []) }
{
    let mut w = [u32x4::splat(0); 16];
    'load: for i in 0..16usize {
        let four = words(blocks, 4 * i);
        w[i] = four;
    }
    let mut v = first_steps(&w, *state);
    // A turn goes once round the ring, so that its indices are constants.
    'schedule: for turn in 1..4usize {
        let next = steps(&mut w, v, turn);
        v = next;
    }
    let sum = added(*state, v);
    *state = sum;
}

/// The sums of two states.
#[inline(always)]
fn added(h: [u32x4; 8], v: [u32x4; 8]) -> [u32x4; 8]
    ensures { (j : ℕ) → j < 4 → lane j result ≡ add_state (lane j h) (lane j v) }
{
    let [h0, h1, h2, h3, h4, h5, h6, h7] = h;
    let [a, b, c, d, e, f, g, i] = v;
    [
        add(h0, a),
        add(h1, b),
        add(h2, c),
        add(h3, d),
        add(h4, e),
        add(h5, f),
        add(h6, g),
        add(h7, i),
    ]
}

/// The digest in a lane of a state.
pub(crate) fn digest_of(state: &[u32x4; 8], j: usize) -> [u8; 32]
    requires { j < 4 }
    ensures { result ≡ digest_bytes (lane j state.now) 8 }
{
    let mut out = [0u8; 32];
    'words: for i in 0..8usize {
        let words = state[i].to_array();
        out[4 * i..4 * i + 4].copy_from_slice(&words[j].to_be_bytes());
    }
    out
}

/// The block `n` of the nine of a message of 513 bytes, with its padding.
pub(crate) fn of(first: u8, rest: &[u8; 512], n: usize) -> [u8; 64]
    requires { n < 9 }
    ensures block { result ≡ take 64 (drop (n * 64) (padded_message (first ∷ rest.now))) }
    ensures sized { length rest.now ≡ 512 }
{
    match n {
        0 => head(first, rest),
        8 => tail(rest[511]),
        _ => inner(rest, 64 * n - 1),
    }
}

/// The first byte and the 63 after it.
fn head(first: u8, rest: &[u8; 512]) -> [u8; 64]
    ensures { result ≡ first ∷ take 63 rest.now }
{
    let mut block = [first; 64];
    block[1..].copy_from_slice(&rest[..63]);
    block
}

/// Sixty-four bytes of a message.
fn inner(rest: &[u8; 512], from: usize) -> [u8; 64]
    requires { from + 64 ≤ 512 }
    ensures { result ≡ take 64 (drop from rest.now) }
{
    let mut block = [0u8; 64];
    block.copy_from_slice(&rest[from..from + 64]);
    block
}

/// The last byte and the padding after it: a bit 1, zeros, and the length in bits.
fn tail(last: u8) -> [u8; 64]
    ensures { result ≡ last ∷ padding 513 }
{
    let mut block = [0u8; 64];
    block[0] = last;
    block[1] = 0x80;
    block[62] = 0x10;
    block[63] = 0x08;
    block
}
