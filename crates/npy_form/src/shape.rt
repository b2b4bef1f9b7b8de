//! The shape of an array.

ghost use Rattle.std.specs.Prelude.{◌≡◌, ◌<◌, ◌≤◌, ◌+◌, ◌*◌, length, get_or, IfOk};
ghost use Rattle.npy_form.specs.Text.{most};
ghost use Rattle.npy_form.specs.Shape.{times, ended, next_axis, axes_from, first_axis, shape_at};

use crate::reason::{Reason, Refusal};
use crate::text::{MOST, Number, number_at, refused, word_at};

/// How many axes may stand behind the first.
const MORE_AXES: usize = 63;

/// How many items there are of the axes so far, the place behind what tells them, and whether the shape ends there.
#[derive(Clone, Copy)]
pub(crate) struct Axis {
    pub(crate) count: u64,
    pub(crate) end: usize,
    pub(crate) last: bool,
}

/// So many times so many.
pub(crate) fn times(count: u64, n: u64, at: usize) -> Result<u64, Refusal>
    ensures value { result ≡ times count n at }
    ensures small { IfOk result (λ all. all ≤ most) }
{
    match count.checked_mul(n) {
        Some(all) => {
            if all > MOST {
                Err(refused(Reason::Number, at))
            } else {
                Ok(all)
            }
        }
        None => Err(refused(Reason::Number, at)),
    }
}

/// What stands behind the length of an axis.
fn ended(bytes: &[u8], at: usize, count: u64) -> Result<Axis, Refusal>
    requires end { at ≤ length bytes.now }
    requires small { count ≤ most }
    ensures value { result ≡ ended bytes.now at count }
    ensures small { IfOk result (λ a. (a.count ≤ most) × (a.end ≤ length bytes.now)) }
{
    if bytes.get(at) == Some(&b')') {
        return Ok(Axis {
            count,
            end: at + 1,
            last: true,
        });
    }
    let end = word_at(bytes, at, b",")?;
    Ok(Axis {
        count,
        end,
        last: false,
    })
}

/// The axis behind others.
#[tactic(auto, unfolding(crate::specs::Shape::next_axis))]
fn next_axis(bytes: &[u8], at: usize, count: u64) -> Result<Axis, Refusal>
    requires end { at ≤ length bytes.now }
    ensures value { result ≡ next_axis bytes.now at count }
    ensures small { IfOk result (λ a. (a.count ≤ most) × (a.end ≤ length bytes.now)) }
{
    let start = word_at(bytes, at, b" ")?;
    let n = number_at(bytes, start)?;
    let all = times(count, n.value, n.end)?;
    ended(bytes, n.end, all)
}

/// The axes behind the first.
#[tactic(auto, unfolding(crate::specs::Shape::axes_from))]
fn axes_from(bytes: &[u8], start: usize, first: u64) -> Result<Number, Refusal>
    requires { start ≤ length bytes.now }
    ensures value { result ≡ axes_from 63 bytes.now start first }
    ensures small { IfOk result (λ n. (n.value ≤ most) × (n.end ≤ length bytes.now)) }
{
    let (mut at, mut count) = (start, first);
    for _more in 0..MORE_AXES {
        let axis = next_axis(bytes, at, count)?;
        if axis.last {
            return Ok(Number {
                value: axis.count,
                end: axis.end,
            });
        }
        at = axis.end;
        count = axis.count;
    }
    Err(refused(Reason::Axes, at))
}

/// The first axis.
#[tactic(auto, unfolding(crate::specs::Shape::first_axis))]
fn first_axis(bytes: &[u8], at: usize) -> Result<Axis, Refusal>
    requires { at ≤ length bytes.now }
    ensures value { result ≡ first_axis bytes.now at }
    ensures small { IfOk result (λ a. (a.count ≤ most) × (a.end ≤ length bytes.now)) }
{
    let n = number_at(bytes, at)?;
    let end = word_at(bytes, n.end, b",")?;
    if bytes.get(end) == Some(&b')') {
        return Ok(Axis {
            count: n.value,
            end: end + 1,
            last: true,
        });
    }
    Ok(Axis {
        count: n.value,
        end,
        last: false,
    })
}

/// How many items there are, and the place behind the shape.
#[tactic(auto, unfolding(crate::specs::Shape::shape_at))]
pub(crate) fn shape_at(bytes: &[u8], at: usize) -> Result<Number, Refusal>
    requires { at ≤ length bytes.now }
    ensures value { result ≡ shape_at bytes.now at }
    ensures small { IfOk result (λ n. (n.value ≤ most) × (n.end ≤ length bytes.now)) }
{
    if bytes.get(at) == Some(&b')') {
        return Ok(Number {
            value: 1,
            end: at + 1,
        });
    }
    let first = first_axis(bytes, at)?;
    if first.last {
        return Ok(Number {
            value: first.count,
            end: first.end,
        });
    }
    axes_from(bytes, first.end, first.count)
}
