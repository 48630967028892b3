//! The worked figures of the levels, of the two keepers and of combining, tried on the code.
use crate::lone::Lone;
use combining::{combine, kept_at};
use keepers::{Keeper, Ordered, Patient, Reader};
use proposals::{GroupSize, METERS, Pair, Proposal, Refusal};

/// What the pairs that combining keeps save together.
fn saved<R: Reader>(reader: &R) -> u32 {
    let mut row = [0; METERS as usize];
    if combine(reader, &mut row).is_err() {
        return 0;
    }
    (0..METERS)
        .filter_map(|low| kept_at(reader, &row, low))
        .fold(0, |sum: u32, kept| sum.saturating_add(kept.saving()))
}

/// Opens a proposal; 0, or the number of the refusal, as the figures are written.
fn put<K: Keeper>(keeper: &mut K, a: u32, b: u32, saving: u32) -> u32 {
    number(Proposal::new(a, b, saving).and_then(|proposal| keeper.put(proposal)))
}

/// Closes a pair; 0, or the number of the refusal.
fn take<K: Keeper>(keeper: &mut K, a: u32, b: u32) -> u32 {
    number(Pair::new(a, b).and_then(|pair| keeper.take(pair)))
}

fn number(answer: Result<(), Refusal>) -> u32 {
    answer.map_or_else(Refusal::number, |()| 0)
}

#[test]
fn levels(rt: HostRuntime) {
    assert_eq!(rt; proposals::level(1), 0);
    assert_eq!(rt; proposals::level(3), 1);
    assert_eq!(rt; proposals::level(4), 2);
    assert_eq!(rt; proposals::level(524_287), 18);
    assert_eq!(rt; proposals::level(524_288), 19);
    assert_eq!(rt; proposals::level(1_048_575), 19);
}

#[test]
fn chain_over_five_meters(rt: HostRuntime) {
    let mut table = [Proposal::FILLER; 8];
    let mut keeper = Patient::new(GroupSize::nearest(5), &mut table);
    assert_eq!(rt; saved(&keeper), 0);
    assert_eq!(rt; put(&mut keeper, 0, 1, 1), 0);
    assert_eq!(rt; saved(&keeper), 1);
    assert_eq!(rt; put(&mut keeper, 1, 2, 2), 0);
    assert_eq!(rt; saved(&keeper), 2);
    assert_eq!(rt; put(&mut keeper, 2, 3, 4), 0);
    assert_eq!(rt; saved(&keeper), 5);
    assert_eq!(rt; put(&mut keeper, 3, 4, 8), 0);
    assert_eq!(rt; saved(&keeper), 10);
    assert_eq!(rt; take(&mut keeper, 3, 4), 0);
    assert_eq!(rt; saved(&keeper), 5);
}

#[test]
fn refusals_after_the_chain(rt: HostRuntime) {
    let mut table = [Proposal::FILLER; 4];
    let mut keeper = Patient::new(GroupSize::nearest(5), &mut table);
    assert_eq!(rt; put(&mut keeper, 0, 1, 1), 0);
    assert_eq!(rt; put(&mut keeper, 1, 2, 2), 0);
    assert_eq!(rt; put(&mut keeper, 2, 3, 4), 0);
    assert_eq!(rt; put(&mut keeper, 3, 4, 8), 0);
    assert_eq!(rt; put(&mut keeper, 1, 0, 7), 5);
    assert_eq!(rt; take(&mut keeper, 0, 4), 7);
    assert_eq!(rt; put(&mut keeper, 0, 5, 7), 4);
    assert_eq!(rt; put(&mut keeper, 5, 5, 0), 2);
    assert_eq!(rt; put(&mut keeper, 0, 2, 1_048_576), 3);
    assert_eq!(rt; put(&mut keeper, 0, 2, 7), 6);
    assert_eq!(rt; saved(&keeper), 10);
}

#[test]
fn equal_savings_patiently(rt: HostRuntime) {
    let mut table = [Proposal::FILLER; 8];
    let mut keeper = Patient::new(GroupSize::nearest(4), &mut table);
    assert_eq!(rt; put(&mut keeper, 1, 2, 4), 0);
    assert_eq!(rt; saved(&keeper), 4);
    assert_eq!(rt; put(&mut keeper, 0, 1, 4), 0);
    assert_eq!(rt; saved(&keeper), 4);
    assert_eq!(rt; put(&mut keeper, 2, 3, 4), 0);
    assert_eq!(rt; saved(&keeper), 4);
    assert_eq!(rt; take(&mut keeper, 1, 2), 0);
    assert_eq!(rt; saved(&keeper), 8);
}

#[test]
fn equal_savings_in_order(rt: HostRuntime) {
    let mut table = [Proposal::FILLER; 8];
    let mut keeper = Ordered::new(GroupSize::nearest(4), &mut table);
    assert_eq!(rt; put(&mut keeper, 1, 2, 4), 0);
    assert_eq!(rt; saved(&keeper), 4);
    assert_eq!(rt; put(&mut keeper, 0, 1, 4), 0);
    assert_eq!(rt; saved(&keeper), 4);
    assert_eq!(rt; put(&mut keeper, 2, 3, 4), 0);
    assert_eq!(rt; saved(&keeper), 8);
}

#[test]
fn two_meters_let_go_at_once(rt: HostRuntime) {
    let mut table = [Proposal::FILLER; 8];
    let mut keeper = Patient::new(GroupSize::nearest(5), &mut table);
    assert_eq!(rt; put(&mut keeper, 0, 2, 8), 0);
    assert_eq!(rt; put(&mut keeper, 1, 3, 8), 0);
    assert_eq!(rt; put(&mut keeper, 3, 4, 4), 0);
    assert_eq!(rt; put(&mut keeper, 2, 3, 1), 0);
    assert_eq!(rt; put(&mut keeper, 0, 1, 16), 0);
    let mut row = [9; 6];
    assert!(rt; combine(&keeper, &mut row).is_ok());
    assert_eq!(rt; row, [1, 0, 2, 4, 3, 9]);
    assert_eq!(rt; saved(&keeper), 20);
}

#[test]
fn a_keeper_of_a_buyer(rt: HostRuntime) {
    let mut keeper = Lone::new(GroupSize::nearest(5));
    assert_eq!(rt; put(&mut keeper, 3, 1, 6), 0);
    assert_eq!(rt; keeper.mate(3, 2), Some(1));
    assert_eq!(rt; keeper.mate(3, 1), None);
    assert_eq!(rt; saved(&keeper), 6);
    assert_eq!(rt; put(&mut keeper, 1, 3, 9), 5);
    assert_eq!(rt; put(&mut keeper, 0, 4, 9), 6);
    assert_eq!(rt; take(&mut keeper, 0, 4), 7);
    assert_eq!(rt; take(&mut keeper, 1, 3), 0);
    assert_eq!(rt; saved(&keeper), 0);
}
