//! Square roots of whole numbers.
ghost use Rattle.std.specs.Prelude.{◌≡◌, ◌+◌, ◌*◌, ◌^◌, ◌<◌, ◌≤◌};
ghost use Rattle.buck_rule.specs.Root.{isqrt};

/// The square root of a product, rounded down: Newton's steps from a power of two near it, until they fall no more.
#[tactic(auto, using(crate::proofs::Roots::is_isqrt))]
pub(crate) fn square_root(share: u64, targets: u64) -> u64
    requires share { share < 2 ^ 47 }
    requires targets { targets < 2 ^ 30 }
    ensures exact { result ≡ isqrt (share * targets) }
    ensures bound { result < 2 ^ 39 }
{
    let square = u128::from(share) * u128::from(targets);
    if square == 0 {
        return 0;
    }
    // Newton's steps are proved to end at the root from any start. The library's integer root takes several times as
    // long as cutting a stem, if each stem ends a period.
    let mut root = nearer(square, near(square));
    loop {
        let next = nearer(square, root);
        if root <= next {
            return root as u64;
        }
        root = next;
    }
}

/// A power of two near the square root of a number, at most twice as great.
fn near(square: u128) -> u128
    ensures { (0 < result) × (result ≤ 2 ^ 64) }
{
    1 << ((129 - square.leading_zeros()) / 2)
}

/// One of Newton's steps towards the square root of a number, rounded down. It comes to the root or above it, and if
/// it does not fall, it was at the root or below.
#[tactic(auto, using(crate::proofs::Roots::newton_above))]
fn nearer(square: u128, root: u128) -> u128
    requires square { square < 2 ^ 77 }
    requires root { (0 < root) × (root ≤ 2 ^ 77) }
    ensures above { square < (result + 1) * (result + 1) }
    ensures within { result ≤ 2 ^ 77 }
    ensures least { root ≤ result → root * root ≤ square }
{
    (root + square / root) / 2
}
