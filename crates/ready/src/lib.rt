// Refusal 13: whether a walk may begin from a ready start.
#![tactic(auto)]

ghost use Rattle.std.specs.Prelude.{◌≡◌, ◌≤◌, length};
ghost use Rattle.rules.specs.Walk.{powers};
ghost use Rattle.rules.specs.TwoCalls.{is_ready};

use rules::ReadyStart;

// K: the powers are 1, 2, 4, .. up to the first that is at least the reach.
fn count_powers(reach: u32) -> u32
    requires { reach ≤ 256 }
    ensures { result ≡ length (powers reach) }
{
    reach.next_power_of_two().ilog2() + 1
}

// At most 2 + 6K looks, and some axis is not level.
pub fn is_ready(d: ReadyStart, reach: u32) -> bool
    requires { reach ≤ 256 }
    ensures { result ≡ is_ready (length (powers reach)) d }
{
    let most = 2 + 6 * count_powers(reach);
    let level = d.level;
    (d.looks <= most) & !(level.x & (level.y & level.z))
}
