// A refusal: its number and its place, with the steps and the looks so far.
#![tactic(auto)]

ghost use Rattle.std.specs.Prelude.{◌≡◌};
ghost use Rattle.rules.specs.Refusals.{number_of};
ghost use Rattle.refusals.specs.Refusals.{refusal_of};

use rules::{Refusal, Refused, Vector};

pub fn number_of(why: Refusal) -> u32
    ensures { result ≡ number_of why }
{
    why as u32
}

pub fn refuse(why: Refusal, place: Vector, steps: u32, looks: u32) -> Refused
    ensures { result ≡ refusal_of (number_of why) place steps looks }
{
    refusal(number_of(why), place, steps, looks)
}

pub fn refusal(number: u32, place: Vector, steps: u32, looks: u32) -> Refused
    ensures { result ≡ refusal_of number place steps looks }
{
    Refused {
        number: number,
        place: place,
        steps: steps,
        looks: looks,
    }
}
