// One round: the pairs that take part are asked in their order, and the best of those that fall is kept.
#![tactic(auto)]

ghost use Rattle.std.specs.Prelude.{◌≡◌, ◌<◌, get_or};
ghost use Rattle.rules.specs.declared.Pair.TheVariants.{P21};
ghost use Rattle.rules.specs.Walk.{pairs, from, to, level, takes_part};
ghost use Rattle.laws.specs.Tally.{Countable};
ghost use Rattle.solid.specs.Grid.{ranks_of};
ghost use Rattle.falls.specs.Scene.{probe_of};
ghost use Rattle.choice.specs.Sound.{Sound};
ghost use Rattle.choice.specs.Lighter.{Weighs};
ghost use Rattle.round.specs.Corners.{index, corner_at, difference, stepped, corners_in, triangle_in, Ranked, Small, AllSmall};
ghost use Rattle.round.specs.Round.{Skips, WayAsked, RoundAsked};

use choice::Best;
use falls::{Falls, Outside, Probe};
use rules::{Axis, Levels, Pair, Triangle, Vector};

// A triangle vector laid in, with its rank.
#[derive(Clone, Copy)]
pub struct Corner {
    pub at: Vector,
    pub rank: i32,
}

// The best so far, if a pair fell, with the looks so far.
#[derive(Clone, Copy)]
pub struct Round {
    pub best: Option<Best<Pair>>,
    pub looks: u32,
}

// ---- pairs

// k of the pair (k, l)
pub fn first_of(pair: Pair) -> Axis
    ensures { result ≡ from pair }
{
    match pair {
        Pair::P01 | Pair::P02 => Axis::Axis0,
        Pair::P10 | Pair::P12 => Axis::Axis1,
        Pair::P20 | Pair::P21 => Axis::Axis2,
    }
}

// l: one of the two other axes
pub fn second_of(pair: Pair) -> Axis
    ensures { result ≡ to pair }
{
    match pair {
        Pair::P10 | Pair::P20 => Axis::Axis0,
        Pair::P01 | Pair::P21 => Axis::Axis1,
        Pair::P02 | Pair::P12 => Axis::Axis2,
    }
}

pub fn is_level(levels: Levels, axis: Axis) -> bool
    ensures { result ≡ level levels axis }
{
    axis::choose(axis, levels.x, levels.y, levels.z)
}

// Bit by bit, in the order of pairs, those that take no part: 0 and 2 are of x and y, 1 and 4 of x and z, 3 and 5 of y and z.
fn skipped(level: Levels) -> u32
    ensures { Skips level result }
{
    let a = (level.x | level.y) as u32;
    let b = (level.x | level.z) as u32;
    let c = (level.y | level.z) as u32;
    5 * a + 18 * b + 40 * c
}

// Level axes take no part in the pairs.
pub fn takes_part(level: Levels, pair: Pair) -> bool
    ensures { result ≡ takes_part level pair }
{
    (skipped(level) >> pair as u32) % 2 == 0
}

// A pair by its number in the order in which they are asked.
fn pair_at(number: u32) -> Pair
    requires { number < 6 }
    ensures { result ≡ get_or pairs number P21 }
{
    match number {
        0 => Pair::P01,
        1 => Pair::P02,
        2 => Pair::P10,
        3 => Pair::P12,
        4 => Pair::P20,
        _ => Pair::P21,
    }
}

// ---- the triangle, laid in, each vector with its rank

pub fn triangle_of(m: &[Corner; 3]) -> Triangle
    ensures { result ≡ corners_in m.now }
{
    let [m0, m1, m2] = m;
    Triangle {
        m0: m0.at,
        m1: m1.at,
        m2: m2.at,
    }
}

// The place of m_k, where k is the first of a pair. By the pair's number: a match is compiled into branches, at each question of a round.
fn first_place(pair: Pair) -> u32
    ensures { result ≡ index (from pair) }
{
    pair as u32 / 2
}

// The place of m_l: one of the two others, the lower first.
fn second_place(pair: Pair) -> u32
    ensures { result ≡ index (to pair) }
{
    let k = pair as u32 / 2;
    let j = pair as u32 % 2;
    if j < k { j } else { j + 1 }
}

fn first_corner(m: &[Corner; 3], pair: Pair) -> Corner
    ensures { result ≡ corner_at m.now (from pair) }
{
    m[first_place(pair) as usize]
}

fn second_corner(m: &[Corner; 3], pair: Pair) -> Corner
    ensures { result ≡ corner_at m.now (to pair) }
{
    m[second_place(pair) as usize]
}

// The rank of a difference is the difference of the ranks.
fn subtract(a: Corner, b: Corner) -> Corner
    requires { Small a × Small b }
    ensures { result ≡ difference a b }
{
    Corner {
        at: space::subtract(a.at, b.at),
        rank: a.rank - b.rank,
    }
}

// A step: m_k - m_l in the place of m_k.
pub fn step_by(m: &mut [Corner; 3], pair: Pair)
    requires { AllSmall m.old }
    ensures { m.new ≡ stepped m.old pair }
{
    let way = subtract(first_corner(m, pair), second_corner(m, pair));
    m[first_place(pair) as usize] = way;
}

// ---- the round

// A pair that takes part, after those of which `sofar` tells; it is weighed if it falls.
fn ask_way(probe: &Probe, m: &[Corner; 3], pair: Pair, sofar: Round) -> Result<Round, Outside>
    requires { Sound (triangle_in probe.now.scene.signs m.now) × Ranked (ranks_of probe.now.scene.solid) m.now × Weighs (triangle_in probe.now.scene.signs m.now) sofar.best × Countable 1 sofar.looks }
    ensures { WayAsked (probe_of probe.now.scene probe.now.bytes.now) (triangle_in probe.now.scene.signs m.now) pair sofar result }
{
    let a = first_corner(m, pair);
    let b = second_corner(m, pair);
    let way = subtract(b, a);
    match probe.ask_falls(way.at, way.rank, sofar.looks) {
        Falls::Fell(looks) => {
            let best = choice::prefer(sofar.best, choice::weigh(pair, b.at, way.at));
            Ok(Round { best, looks })
        }
        Falls::Kept(looks) => Ok(Round { looks, ..sofar }),
        Falls::Stopped(outside) => Err(outside),
    }
}

// All pairs that take part, even after one has fallen. One call in a loop and not six: so the question is compiled in place.
pub fn ask_round(
    probe: &Probe,
    level: Levels,
    m: &[Corner; 3],
    looks: u32,
) -> Result<Round, Outside>
    requires { Sound (triangle_in probe.now.scene.signs m.now) × Ranked (ranks_of probe.now.scene.solid) m.now × Countable 6 looks }
    ensures { RoundAsked (probe_of probe.now.scene probe.now.bytes.now) (triangle_in probe.now.scene.signs m.now) level looks result }
{
    let mut round = Round { best: None, looks };
    for number in 0..6 {
        let pair = pair_at(number);
        if takes_part(level, pair) {
            round = ask_way(probe, m, pair, round)?;
        }
    }
    Ok(round)
}
