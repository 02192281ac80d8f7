// The choice among falling pairs: a pair's weight, and the best so far. In 32 bits throughout, to which `tests/choice` holds it.
#![tactic(auto)]

ghost use Rattle.std.specs.Prelude.{◌≡◌};
ghost use Rattle.rules.specs.Vectors.{dot};
ghost use Rattle.laws.specs.Bounds.{Bounded};
ghost use Rattle.choice.specs.Best.{best_of, lighter};

use rules::Vector;

// A falling pair with its weight. The pair is whatever the caller knows it by.
#[derive(Clone, Copy)]
pub struct Best<P> {
    pub pair: P,
    pub weight: i32,
}

// The pair with its weight, m_l·(m_l - m_k), where l is m_l and w the way.
pub fn weigh<P: Copy>(pair: P, l: Vector, w: Vector) -> Best<P>
    requires { Bounded 10000 l × Bounded 10000 w }
    ensures { result ≡ best_of pair (dot l w) }
{
    Best {
        pair,
        weight: space::dot(l, w),
    }
}

// The lighter pair, of equals the first. Strictly inside is lighter: theorem `inside-by-weight`.
#[tactic(auto, unfolding(crate::specs::Best::lighter))]
pub fn prefer<P: Copy>(sofar: Option<Best<P>>, next: Best<P>) -> Option<Best<P>>
    ensures { result ≡ lighter sofar next }
{
    match &sofar {
        Some(best) if best.weight <= next.weight => sofar,
        _ => Some(next),
    }
}
