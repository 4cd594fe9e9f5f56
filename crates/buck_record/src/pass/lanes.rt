//! Words of three digits, four at a time.
ghost use Rattle.std.specs.Prelude.{ℕ, ◌<◌, ◌≤◌, slice_index, IfSome, IsTrue};
ghost use Rattle.buck_record.specs.inner.Front.{IsThree, HasFronts};

use std::simd::prelude::*;

/// No lane is above 9.
#[inline(always)]
fn are_digits(v: u32x4) -> bool
    ensures { IsTrue result → (i : ℕ) → i < 4 → slice_index v i ≤ 9 }
{
    v.simd_gt(u32x4::splat(9)).to_bitmask() == 0
}

/// The numbers of four groups of four bytes, each three digits and a space.
#[inline(always)]
fn four_threes(groups: u32x4) -> Option<[u32; 4]>
    ensures { IfSome result (λ vs. (i : ℕ) → i < 4 → IsThree (slice_index groups i) (slice_index vs i)) }
{
    // Less the bytes of three noughts and a space. A byte below a nought wraps to one above 9, so what it borrows from
    // the next byte never goes unseen.
    let digits = groups - u32x4::splat(0x2030_3030);
    let a = digits & u32x4::splat(255);
    let rest = digits >> 8;
    let b = rest & u32x4::splat(255);
    // It holds the last byte too, so it is a digit only if that is a space.
    let c = rest >> 8;
    if !are_digits(a.simd_max(b).simd_max(c)) {
        return None;
    }
    Some((a * u32x4::splat(100) + b * u32x4::splat(10) + c).to_array())
}

/// The numbers that a text begins with, if these are four times three digits and a space.
#[inline(always)]
pub(crate) fn front_fours(text: &[u8]) -> Option<[u32; 4]>
    ensures { IfSome result (λ vs. HasFronts text.now vs) }
{
    if text.len() < 16 {
        return None;
    }
    four_threes(u32x4::from_le_bytes(u8x16::from_slice(text)))
}
