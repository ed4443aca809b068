// The settings of a call, each tested by itself.
#![tactic(auto)]

ghost use Rattle.std.specs.Prelude.{◌≡◌, ◌≤◌};
ghost use Rattle.call.specs.Limits.{groups_allowed, rank_allowed, causal_allowed, mode_allowed, scale_allowed, cap_allowed};

use call::Scale;

// Hq is a multiple of Hkv.
pub fn groups_allowed(qheads: usize, kvheads: usize) -> bool
    requires { 1 ≤ kvheads }
    ensures { result ≡ groups_allowed qheads kvheads }
{
    qheads % kvheads == 0
}

pub fn rank_allowed(rank: usize) -> bool
    ensures { result ≡ rank_allowed rank }
{
    shapes_tests::is_either(3, 4, rank)
}

pub fn causal_allowed(causal: usize) -> bool
    ensures { result ≡ causal_allowed causal }
{
    causal <= 1
}

pub fn mode_allowed(mode: Option<usize>) -> bool
    ensures { result ≡ mode_allowed mode }
{
    mode.is_none_or(|m| m <= 3)
}

// A given scale is above 0 and at most 1,024; both tests fail of a NaN.
pub fn scale_allowed(scale: Scale) -> bool
    ensures { result ≡ scale_allowed scale }
{
    match scale {
        Scale::Absent => true,
        Scale::Given(x) => 0.0 < x && x <= 1024.0,
    }
}

// A cap is 0 of either sign or above 0, and at most 65,536; both tests fail of a NaN.
pub fn cap_allowed(cap: f32) -> bool
    ensures { result ≡ cap_allowed cap }
{
    (0.0..=65536.0).contains(&cap)
}
