//! Intervals of values, and operators on them.
ghost use Rattle.std.specs.Prelude.{◌≡◌, ℤ, pos, ◌≤ℤ◌, ◌<ℤ◌, IfSome};
ghost use Rattle.array_meaning.specs.Values.{applied, quotient, remainder, wrapping_difference, wrapping_minus, wrapping_product, wrapping_sum};
ghost use Rattle.touch_bounds.specs.Intervals.{exactly, LeadInto, LeadsInto, LiesIn};

use array_tree::Op;

/// The values from the least to the greatest, both included.
#[derive(Clone, Copy, PartialEq, Eq, Debug, Drop)]
pub struct Interval {
    pub least: i64,
    pub greatest: i64,
}

impl Interval {
    /// The interval of one value.
    pub(crate) fn exactly(value: i64) -> Interval
        ensures { result ≡ exactly value }
    {
        Interval {
            least: value,
            greatest: value,
        }
    }
}

// The values of a comparison.
const TRUTH: Interval = Interval {
    least: 0,
    greatest: 1,
};

const ZERO: Interval = Interval {
    least: 0,
    greatest: 0,
};

// A sum of two values, if none wraps.
fn sum(left: Interval, right: Interval) -> Option<Interval>
    ensures { IfSome result (λ noted. LeadInto wrapping_sum left right noted) }
{
    let least = left.least.checked_add(right.least)?;
    let greatest = left.greatest.checked_add(right.greatest)?;
    Some(Interval { least, greatest })
}

// A difference of two values, if none wraps.
fn difference(left: Interval, right: Interval) -> Option<Interval>
    ensures { IfSome result (λ noted. LeadInto wrapping_difference left right noted) }
{
    let least = left.least.checked_sub(right.greatest)?;
    let greatest = left.greatest.checked_sub(right.least)?;
    Some(Interval { least, greatest })
}

/// The minus sign before a value, if that never wraps.
pub(crate) fn minus(operand: Interval) -> Option<Interval>
    ensures { IfSome result (λ noted. LeadsInto wrapping_minus operand noted) }
{
    let least = operand.greatest.checked_neg()?;
    let greatest = operand.least.checked_neg()?;
    Some(Interval { least, greatest })
}

// The least interval with two numbers.
fn between(one: i64, other: i64) -> Interval
    ensures one { LiesIn result one }
    ensures other { LiesIn result other }
{
    Interval {
        least: one.min(other),
        greatest: one.max(other),
    }
}

// The least interval that contains two others.
fn joined(one: Interval, other: Interval) -> Interval
    ensures one { (x : ℤ) → LiesIn one x → LiesIn result x }
    ensures other { (x : ℤ) → LiesIn other x → LiesIn result x }
{
    Interval {
        least: one.least.min(other.least),
        greatest: one.greatest.max(other.greatest),
    }
}

// A product of two values, if none wraps: it lies between products of bounds.
fn product(left: Interval, right: Interval) -> Option<Interval>
    ensures { IfSome result (λ noted. LeadInto wrapping_product left right noted) }
{
    let low_low = left.least.checked_mul(right.least)?;
    let low_high = left.least.checked_mul(right.greatest)?;
    let high_low = left.greatest.checked_mul(right.least)?;
    let high_high = left.greatest.checked_mul(right.greatest)?;
    Some(joined(between(low_low, low_high), between(high_low, high_high)))
}

// A quotient by a constant, if none wraps.
fn quotient(left: Interval, divisor: i64) -> Option<Interval>
    ensures { IfSome result (λ noted. LeadsInto (λ x. quotient x divisor) left noted) }
{
    if divisor == 0 {
        return Some(ZERO);
    }
    let low = left.least.checked_div(divisor)?;
    let high = left.greatest.checked_div(divisor)?;
    Some(between(low, high))
}

// A lower bound of the remainders.
fn lowest_remainder(left: Interval, divisor: i64) -> i64
    requires { pos 0 <ℤ divisor }
    ensures { (x : ℤ) → LiesIn left x → result ≤ℤ remainder x divisor }
{
    if left.least < 0 { 1 - divisor } else { 0 }
}

// An upper bound of the remainders.
fn highest_remainder(left: Interval, divisor: i64) -> i64
    requires { pos 0 <ℤ divisor }
    ensures { (x : ℤ) → LiesIn left x → remainder x divisor ≤ℤ result }
{
    if left.greatest > 0 { divisor - 1 } else { 0 }
}

// A remainder by a constant that isn't negative.
fn remainder(left: Interval, divisor: i64) -> Option<Interval>
    ensures { IfSome result (λ noted. LeadsInto (λ x. remainder x divisor) left noted) }
{
    if divisor < 0 {
        return None;
    }
    if divisor == 0 {
        return Some(ZERO);
    }
    if 0 <= left.least && left.greatest < divisor {
        return Some(left);
    }
    Some(Interval {
        least: lowest_remainder(left, divisor),
        greatest: highest_remainder(left, divisor),
    })
}

// The only value in an interval.
fn constant(within: Interval) -> Option<i64>
    ensures { IfSome result (λ only. (x : ℤ) → LiesIn within x → x ≡ only) }
{
    if within.least == within.greatest {
        Some(within.least)
    } else {
        None
    }
}

/// The values of an operator on two intervals. `None` if a result may wrap, if it depends on a divisor that isn't a constant,
/// or if it is a remainder by a negative constant.
pub(crate) fn applied(op: Op, left: Interval, right: Interval) -> Option<Interval>
    ensures { IfSome result (λ noted. LeadInto (applied op) left right noted) }
{
    match op {
        Op::Add => sum(left, right),
        Op::Sub => difference(left, right),
        Op::Mul => product(left, right),
        Op::Div => quotient(left, constant(right)?),
        Op::Rem => remainder(left, constant(right)?),
        Op::Less => Some(TRUTH),
        Op::Greater => Some(TRUTH),
        Op::LessEq => Some(TRUTH),
        Op::GreaterEq => Some(TRUTH),
        Op::Equal => Some(TRUTH),
        Op::NotEqual => Some(TRUTH),
    }
}
