// A number in a range.
#![tactic(auto)]

ghost use Rattle.std.specs.Prelude.{◌≡◌};
ghost use Rattle.rules.specs.Solids.{between};

// `&` and not `&&`: no branch.
pub fn is_between(low: i32, x: i32, high: i32) -> bool
    ensures { result ≡ between low x high }
{
    (low <= x) & (x <= high)
}
