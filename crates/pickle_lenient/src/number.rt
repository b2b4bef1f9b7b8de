//! Numbers of any size.

ghost use Rattle.std.specs.Prelude.{◌≡◌, ◌≢◌, [], true, false, ◌==◌, ◌^◌, ◌≤◌, ◌+◌, ◌*◌, ◌-◌, None, IfSome, OnOk};
ghost use Rattle.std.specs.Cmp.{partial_order_from_own_ties};
ghost use Rattle.std.specs.Cmp.Rules.{comparing};
ghost use Rattle.std.proofs.Common.{rules};
ghost use Rattle.std.specs.Ordering.{nat_cmp, as_partial_cmp};
ghost use Rattle.pickle_lenient.specs.Number.{value_of, IsNumber};
ghost use Rattle.pickle_lenient.specs.Key.{is_digit};

use std::alloc::{AllocError, Global};
use std::cmp::Ordering;
use std::marker::Model;

/// A number of any size: its decimal digits, the first of which is not 0. The number 0 has none.
#[derive(Drop)]
pub struct Number {
    digits: Vec<u8>,
}

impl Model for Number {
    ghost use Rattle.std.specs.Prelude.{ℕ};
    ghost use Rattle.pickle_lenient.specs.Number.{value_of, IsNumber};

    ghost Value = { ℕ };

    ghost view = { λ n. value_of n.digits.items };

    ghost invariant = { λ n. IsNumber n.digits.items };
}

/// Whether a digit behind these is a 0 in front of the number.
fn is_leading(digits: &[u8], digit: u8) -> bool
    ensures leads { result ≡ true → (digits.now ≡ []) × (digit ≡ 48) }
    ensures follows { result ≡ false → digits.now ≡ [] → digit ≢ 48 }
{
    if digits.is_empty() {
        digit == b'0'
    } else {
        false
    }
}

/// A number with another digit behind it, if it has at most 64 bits then.
fn with_digit(number: u64, digit: u8) -> Option<u64>
    requires { 48 ≤ digit }
    ensures some { IfSome result (λ n. n ≡ 10 * number + (digit - 48)) }
    ensures none { result ≡ None → 2 ^ 64 ≤ 10 * number + (digit - 48) }
{
    match number.checked_mul(10) {
        None => None,
        Some(ten) => ten.checked_add(u64::from(digit - 48)),
    }
}

/// Which of two numbers with these digits is the greater one.
fn compare(digits: &[u8], others: &[u8]) -> Ordering
    requires left { IsNumber digits.now }
    requires right { IsNumber others.now }
    ensures { result ≡ nat_cmp (value_of digits.now) (value_of others.now) }
{
    let count = digits.len();
    let other_count = others.len();
    match count.cmp(&other_count) {
        Ordering::Equal => digits.cmp(others),
        longer => longer,
    }
}

impl Number {
    /// 0.
    pub(crate) fn zero(alloc: Global) -> Number
        ensures { result ≡ 0 }
    {
        Number {
            digits: Vec::new(alloc),
        }
    }

    /// Another digit behind the others. An error comes only where memory runs out.
    pub(crate) fn push(&mut self, digit: u8) -> Result<(), AllocError>
        requires { is_digit digit ≡ true }
        ensures ok { OnOk result (self.new ≡ 10 * self.old + (digit - 48)) }
    {
        if is_leading(self.digits.as_slice(), digit) {
            return Ok(());
        }
        self.digits.push(digit)?;
        Ok(())
    }

    /// The number, if it has at most 64 bits.
    pub fn short(&self) -> Option<u64>
        ensures some { IfSome result (λ n. n ≡ self.now) }
        ensures none { result ≡ None → 2 ^ 64 ≤ self.now }
    {
        let mut number: u64 = 0;
        for d in self.digits.as_slice() {
            match with_digit(number, *d) {
                None => return None,
                Some(more) => number = more,
            }
        }
        Some(number)
    }
}

impl PartialEq for Number {
    ghost eq = { ◌==◌ };

    ghost laws = { Prim.search (comparing, rules) };

    fn eq(&self, other: &Number) -> bool {
        self.cmp(other) == Ordering::Equal
    }
}

impl Eq for Number {
    ghost laws = { Prim.search (comparing, rules) };
}

impl PartialOrd for Number {
    ghost partial_cmp = { as_partial_cmp nat_cmp };

    ghost laws = { partial_order_from_own_ties (Prim.search (comparing, rules)) (Prim.search (comparing, rules)) };

    fn partial_cmp(&self, other: &Number) -> Option<Ordering> {
        Some(self.cmp(other))
    }
}

impl Ord for Number {
    ghost cmp = { nat_cmp };

    ghost total = { Prim.search (comparing, rules) };

    ghost matches_partial_cmp = { Prim.search (comparing, rules) };

    ghost matches_eq = { Prim.search (comparing, rules) };

    fn cmp(&self, other: &Number) -> Ordering {
        compare(self.digits.as_slice(), other.digits.as_slice())
    }
}
