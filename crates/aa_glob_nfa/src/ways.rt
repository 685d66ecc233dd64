//! The table of ways, and look-ups in it.

ghost use Rattle.std.specs.Prelude.{◌≡◌, ◌<◌, ◌≤◌, length, All, Contains};
ghost use Rattle.std.specs.List.{AllWithin};
ghost use Rattle.std.specs.List.Sorted.{IsNonDecreasingBy};
ghost use Rattle.aa_glob_nfa.specs.code.Blocks.{AreFirsts, Begins, block_of, place_or, unknown};
ghost use Rattle.aa_glob_nfa.specs.Tables.{AreLeaving, IsAlong, no_byte, order_of};
ghost use Rattle.aa_glob_nfa.specs.declared.state.Way.{Way};

use crate::state::{NO_BYTE, Way};
use std::alloc::AllocError;

// How many states a block has.
const BLOCK: u32 = 8;

// Up to so many ways are returned as they are; among more, those of a state and a byte are found by binary search.
const FEW: usize = 12;

/// Ways that lead from a state by a byte, or without one; other ways may be among them.
#[derive(Clone, Copy)]
pub struct Leaving<'a> {
    /// The ways without a byte of their own.
    pub any: &'a [Way],
    /// The ways of the byte. Where there are few ways, these are in `any`, too.
    pub own: &'a [Way],
}

/// Adds the entry in which the first way of a state's block is kept, if the state is the block's first.
pub fn begin_block(firsts: &mut Vec<u32>, state: u32) -> Result<(), AllocError> {
    if state % BLOCK == 0 {
        firsts.push(u32::MAX)?;
    }
    Ok(())
}

/// Finds the index of the first way of each block of states.
pub fn find_firsts(ways: &[Way], firsts: &mut Vec<u32>)
    requires sorted { IsNonDecreasingBy order_of ways.now }
    requires each { All (λ w. w.by ≤ no_byte) ways.now }
    ensures { AreFirsts ways.now firsts.new.items }
{
    for block in 0..firsts.len() {
        firsts[block] = first_of_block(ways, block);
    }
}

// The index of the first way of this block of states, or `u32::MAX` where it is no `u32`.
fn first_of_block(ways: &[Way], block: usize) -> u32
    requires sorted { IsNonDecreasingBy order_of ways.now }
    requires each { All (λ w. w.by ≤ no_byte) ways.now }
    ensures { result < unknown → Begins ways.now block result }
{
    match u32::try_from(ways.partition_point(|way| ((way.from / BLOCK) as usize) < block)) {
        Ok(first) => first,
        Err(_) => u32::MAX,
    }
}

/// The ways from the states of a state's block, by the indices of the blocks' first ways.
pub fn ways_of_block<'a>(ways: &'a [Way], firsts: &[u32], from: u32) -> &'a [Way]
    requires sorted { IsNonDecreasingBy order_of ways.now }
    requires firsts { AreFirsts ways.now firsts.now }
    ensures sorted { IsNonDecreasingBy order_of result.now }
    ensures only { All (Contains ways.now) result.now }
    ensures each { (way : Way) → Contains ways.now way → way.from ≡ from → Contains result.now way }
{
    let block = (from / BLOCK) as usize;
    let start = place_or(firsts, block, 0);
    let end = place_or(firsts, block + 1, ways.len());
    &ways[start..end]
}

// The index kept at `at`, or another where none is known.
fn place_or(places: &[u32], at: usize, other: usize) -> usize
    ensures { result ≡ place_or places.now at other }
{
    match places.get(at) {
        Some(place) if *place < u32::MAX => *place as usize,
        _ => other,
    }
}

/// Those of some sorted ways that may lead from a state by this byte, or by none.
pub fn leaving_among(ways: &[Way], from: u32, byte: Option<u8>) -> Leaving<'_>
    requires sorted { IsNonDecreasingBy order_of ways.now }
    requires each { All (λ w. w.by ≤ no_byte) ways.now }
    ensures { AreLeaving ways.now from byte result.any.now result.own.now }
{
    if ways.len() <= FEW {
        return Leaving {
            any: ways,
            own: &[],
        };
    }
    let any = ways_along(ways, from, NO_BYTE);
    match byte {
        Some(own) => Leaving {
            any,
            own: ways_along(ways, from, own as u16),
        },
        None => Leaving { any, own: &[] },
    }
}

// Those of some sorted ways that lead from a state by this number.
fn ways_along(ways: &[Way], from: u32, by: u16) -> &[Way]
    requires sorted { IsNonDecreasingBy order_of ways.now }
    requires each { All (λ w. w.by ≤ no_byte) ways.now }
    requires is_number { by ≤ no_byte }
    ensures only { All (IsAlong ways.now from by) result.now }
    ensures each { (way : Way) → IsAlong ways.now from by way → Contains result.now way }
{
    let order = from as u64 * 512 + by as u64;
    let start = first_way(ways, order);
    let end = first_way(ways, order + 1);
    &ways[start..end]
}

// The index of the first way whose key isn't less than `order`.
fn first_way(ways: &[Way], order: u64) -> usize
    requires { IsNonDecreasingBy order_of ways.now }
    ensures within { result ≤ length ways.now }
    ensures before { AllWithin (λ w. order_of w < order) ways.now 0 result }
    ensures behind { AllWithin (λ w. order ≤ order_of w) ways.now result (length ways.now) }
{
    ways.partition_point(|way| way.order() < order)
}
