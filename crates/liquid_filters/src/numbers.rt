// The filters of numbers.
ghost use Rattle.std.specs.Prelude.{◌≡◌, ◌<ℤ◌, ◌≤ℤ◌, pos, neg_ℤ, map};
ghost use Rattle.std.specs.Int.{int_max, int_min, int_div_euclid, int_rem_euclid};
ghost use Rattle.site_base.specs.View.{plain};
ghost use Rattle.filter_base.specs.Numerals.{fitting};
ghost use Rattle.liquid_filters.specs.Numbers.{absolute, sum, difference, product, quotient, remainder, lone, both, number_filter};

use filter_base::{fit, no_more, num, one};
use site_base::{FaultKind, Value};

/// A filter that gives a number.
#[derive(Clone, Copy, Debug, PartialEq, Eq)]
pub enum NumberFilter {
    Abs,
    AtLeast,
    AtMost,
    Ceil,
    DividedBy,
    Floor,
    Minus,
    Modulo,
    Plus,
    Round,
    Times,
}

pub(crate) fn number_filter(
    filter: NumberFilter,
    input: &Value,
    args: &[Value],
) -> Result<i64, FaultKind>
    ensures { result ≡ number_filter filter (plain input.now) (map plain args.now) }
{
    match filter {
        NumberFilter::Abs => absolute(lone(input, args)?),
        NumberFilter::AtLeast => at_least(both(input, args)?),
        NumberFilter::AtMost => at_most(both(input, args)?),
        NumberFilter::Ceil => lone(input, args),
        NumberFilter::DividedBy => quotient(both(input, args)?),
        NumberFilter::Floor => lone(input, args),
        NumberFilter::Minus => difference(both(input, args)?),
        NumberFilter::Modulo => remainder(both(input, args)?),
        NumberFilter::Plus => sum(both(input, args)?),
        NumberFilter::Round => lone(input, args),
        NumberFilter::Times => product(both(input, args)?),
    }
}

// The input as a number.
fn lone(input: &Value, args: &[Value]) -> Result<i64, FaultKind>
    ensures { result ≡ lone (plain input.now) (map plain args.now) }
{
    no_more(args)?;
    num(input)
}

// The input and the argument as numbers.
fn both(input: &Value, args: &[Value]) -> Result<(i64, i64), FaultKind>
    ensures { result ≡ both (plain input.now) (map plain args.now) }
{
    let argument = one(args)?;
    Ok((num(input)?, num(argument)?))
}

fn absolute(number: i64) -> Result<i64, FaultKind>
    ensures { result ≡ absolute number }
{
    fit(i128::from(number).abs())
}

fn at_least(numbers: (i64, i64)) -> Result<i64, FaultKind>
    ensures { result ≡ Ok (int_max numbers.0 numbers.1) }
{
    Ok(numbers.0.max(numbers.1))
}

fn at_most(numbers: (i64, i64)) -> Result<i64, FaultKind>
    ensures { result ≡ Ok (int_min numbers.0 numbers.1) }
{
    Ok(numbers.0.min(numbers.1))
}

fn sum(numbers: (i64, i64)) -> Result<i64, FaultKind>
    ensures { result ≡ sum numbers.0 numbers.1 }
{
    fit(i128::from(numbers.0) + i128::from(numbers.1))
}

fn difference(numbers: (i64, i64)) -> Result<i64, FaultKind>
    ensures { result ≡ difference numbers.0 numbers.1 }
{
    fit(i128::from(numbers.0) - i128::from(numbers.1))
}

fn product(numbers: (i64, i64)) -> Result<i64, FaultKind>
    ensures { result ≡ product numbers.0 numbers.1 }
{
    match numbers.0.checked_mul(numbers.1) {
        Some(product) => Ok(product),
        None => Err(FaultKind::Overflow),
    }
}

// Rounded down; by a number below 0 it is the quotient of both numbers turned.
fn quotient(numbers: (i64, i64)) -> Result<i64, FaultKind>
    ensures { result ≡ quotient numbers.0 numbers.1 }
{
    if numbers.1 > 0 {
        divided(i128::from(numbers.0), i128::from(numbers.1))
    } else if numbers.1 < 0 {
        turned_quotient(numbers)
    } else {
        Err(FaultKind::DividedByZero)
    }
}

fn turned_quotient(numbers: (i64, i64)) -> Result<i64, FaultKind>
    requires { numbers.1 <ℤ pos 0 }
    ensures { result ≡ fitting (int_div_euclid (neg_ℤ numbers.0) (neg_ℤ numbers.1)) }
{
    divided(turned(numbers.0), turned(numbers.1))
}

fn turned(number: i64) -> i128
    ensures { result ≡ neg_ℤ number }
{
    -i128::from(number)
}

fn divided(number: i128, divisor: i128) -> Result<i64, FaultKind>
    requires { pos 0 <ℤ divisor }
    ensures { result ≡ fitting (int_div_euclid number divisor) }
{
    fit(number.div_euclid(divisor))
}

// What such a quotient leaves, which has the divisor's sign.
fn remainder(numbers: (i64, i64)) -> Result<i64, FaultKind>
    ensures { result ≡ remainder numbers.0 numbers.1 }
{
    if numbers.1 > 0 {
        fit(left(i128::from(numbers.0), i128::from(numbers.1)))
    } else if numbers.1 < 0 {
        turned_remainder(numbers)
    } else {
        Err(FaultKind::DividedByZero)
    }
}

fn turned_remainder(numbers: (i64, i64)) -> Result<i64, FaultKind>
    requires { numbers.1 <ℤ pos 0 }
    ensures { result ≡ fitting (neg_ℤ (int_rem_euclid (neg_ℤ numbers.0) (neg_ℤ numbers.1))) }
{
    let rest = left(turned(numbers.0), turned(numbers.1));
    fit(-rest)
}

// What is left behind a division.
fn left(number: i128, divisor: i128) -> i128
    requires { pos 0 <ℤ divisor }
    ensures value { result ≡ int_rem_euclid number divisor }
    ensures least { pos 0 ≤ℤ result }
{
    number.rem_euclid(divisor)
}
