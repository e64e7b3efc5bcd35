//! The functions of FIPS 180-4 on four words side by side.

ghost use Rattle.std.specs.{Prelude.{◌≡◌, ℕ, ◌<◌, ◌/◌, ◌^◌, bit_and, bit_xor, slice_index}, Int.{w32, bit_not, rotate_right}};
ghost use Rattle.sha2.specs.Sha256.{add32, ch, maj, big_sigma0, big_sigma1, small_sigma0, small_sigma1};

use std::simd::u32x4;

#[inline(always)]
pub(crate) fn add(x: u32x4, y: u32x4) -> u32x4
    ensures { (j : ℕ) → j < 4 → slice_index result j ≡ add32 (slice_index x j) (slice_index y j) }
{
    x + y
}

/// Adds the same word in each lane.
#[inline(always)]
pub(crate) fn add_each(x: u32x4, y: u32) -> u32x4
    ensures { (j : ℕ) → j < 4 → slice_index result j ≡ add32 (slice_index x j) y }
{
    x + u32x4::splat(y)
}

#[inline(always)]
fn xor(x: u32x4, y: u32x4) -> u32x4
    ensures { (j : ℕ) → j < 4 → slice_index result j ≡ bit_xor (slice_index x j) (slice_index y j) }
{
    x ^ y
}

#[inline(always)]
fn and(x: u32x4, y: u32x4) -> u32x4
    ensures { (j : ℕ) → j < 4 → slice_index result j ≡ bit_and (slice_index x j) (slice_index y j) }
{
    x & y
}

#[inline(always)]
fn not(x: u32x4) -> u32x4
    ensures { (j : ℕ) → j < 4 → slice_index result j ≡ bit_not w32 (slice_index x j) }
{
    !x
}

#[inline(always)]
fn shifted_right(x: u32x4, k: u32) -> u32x4
    requires { k < 32 }
    ensures { (j : ℕ) → j < 4 → slice_index result j ≡ slice_index x j / 2 ^ k }
{
    x >> u32x4::splat(k)
}

#[inline(always)]
fn rotated_right(x: u32x4, k: u32) -> u32x4
    requires low { 0 < k }
    requires high { k < 32 }
    ensures { (j : ℕ) → j < 4 → slice_index result j ≡ rotate_right w32 (slice_index x j) k }
{
    (x >> u32x4::splat(k)) | (x << u32x4::splat(32 - k))
}

#[inline(always)]
pub(crate) fn ch(x: u32x4, y: u32x4, z: u32x4) -> u32x4
    ensures { (j : ℕ) → j < 4 → slice_index result j ≡ ch (slice_index x j) (slice_index y j) (slice_index z j) }
{
    xor(and(x, y), and(not(x), z))
}

#[inline(always)]
pub(crate) fn maj(x: u32x4, y: u32x4, z: u32x4) -> u32x4
    ensures { (j : ℕ) → j < 4 → slice_index result j ≡ maj (slice_index x j) (slice_index y j) (slice_index z j) }
{
    xor(xor(and(x, y), and(x, z)), and(y, z))
}

#[inline(always)]
pub(crate) fn big_sigma0(x: u32x4) -> u32x4
    ensures { (j : ℕ) → j < 4 → slice_index result j ≡ big_sigma0 (slice_index x j) }
{
    xor(
        xor(rotated_right(x, 2), rotated_right(x, 13)),
        rotated_right(x, 22),
    )
}

#[inline(always)]
pub(crate) fn big_sigma1(x: u32x4) -> u32x4
    ensures { (j : ℕ) → j < 4 → slice_index result j ≡ big_sigma1 (slice_index x j) }
{
    xor(
        xor(rotated_right(x, 6), rotated_right(x, 11)),
        rotated_right(x, 25),
    )
}

#[inline(always)]
pub(crate) fn small_sigma0(x: u32x4) -> u32x4
    ensures { (j : ℕ) → j < 4 → slice_index result j ≡ small_sigma0 (slice_index x j) }
{
    xor(
        xor(rotated_right(x, 7), rotated_right(x, 18)),
        shifted_right(x, 3),
    )
}

#[inline(always)]
pub(crate) fn small_sigma1(x: u32x4) -> u32x4
    ensures { (j : ℕ) → j < 4 → slice_index result j ≡ small_sigma1 (slice_index x j) }
{
    xor(
        xor(rotated_right(x, 17), rotated_right(x, 19)),
        shifted_right(x, 10),
    )
}
