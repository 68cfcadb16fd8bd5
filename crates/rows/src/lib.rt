// Numbers in lent rows: total reads, and what a search found as a verdict.
#![tactic(auto)]

ghost use Rattle.std.specs.Prelude.{◌≡◌, ◌<◌, ℕ, Bool, get_or, take};
ghost use Rattle.rows.specs.First.{first_to, refuse_if, refused_at};

use edition::{Refusal, Why};

// The number at place i; another one past the row's end.
pub fn at(row: &[u16], i: usize, other: u16) -> u16
    ensures { result ≡ get_or row.now i other }
{
    if i < row.len() { row[i] } else { other }
}

// The 64-bit number at place i; 0 past the row's end.
pub fn wide_at(row: &[u64], i: usize) -> u64
    ensures { result ≡ get_or row.now i 0 }
{
    if i < row.len() { row[i] } else { 0 }
}

// The first n numbers of a row, or all of it where it has fewer: that part of the lent row.
pub fn first(row: &[u16], n: usize) -> &[u16]
    ensures { result.now ≡ take n row.now }
{
    if row.len() < n {
        return row;
    }
    &row[0..n]
}

// Refused for this reason and at this place where the test holds.
#[tactic(auto, unfolding(crate::specs::First::refuse_if))]
pub fn refuse_if(bad: bool, why: Why, place: usize) -> Result<(), Refusal>
    ensures { result ≡ refuse_if bad why place }
{
    if bad {
        return Err(Refusal { why, place });
    }
    Ok(())
}

// The lowest number below n that passes.
pub fn lowest<F: Fn(usize) -> bool>(n: usize, passes: F) -> Option<usize>
    requires { F.IsAlwaysCallable passes }
    ensures { (p : ℕ → Bool)
        → ((k : ℕ) (b : Bool) → k < n → F.post passes k b → b ≡ p k)
        → result ≡ first_to p n }
{
    for k in 0..n {
        if passes(k) {
            return Some(k);
        }
    }
    None
}

// Refused for this reason at what was found.
#[tactic(auto, unfolding(crate::specs::First::refused_at))]
pub fn refused_at(why: Why, found: Option<usize>) -> Result<(), Refusal>
    ensures { result ≡ refused_at why found }
{
    match found {
        None => Ok(()),
        Some(place) => Err(Refusal { why, place }),
    }
}
