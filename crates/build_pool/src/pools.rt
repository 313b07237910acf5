ghost use Rattle.std.specs.Prelude.{◌≡◌, ◌<◌, ◌≤◌, ◌++◌, ◌*◌, ◌+◌, ◌^◌, ◌-◌, [], ◌∷◌, length};
ghost use Rattle.std.specs.Prelude.{vec_len, vec_capacity, sum_by, Any, remove, slice_set, ℕ};
ghost use Rattle.build_pool.specs.Pool.{IsLastOf};
ghost use Rattle.build_pool.specs.declared.pools.Away.{Away};

use crate::builders::Builder;
use std::alloc::{AllocError, Global};
use std::marker::Model;

/// What a pool remembers of a builder that is away: one that it lent, or that was dropped.
#[derive(Clone, Copy, Debug, PartialEq, Eq)]
pub struct Away {
    pub number: u32,
    pub faults: u64,
}

/// The builders of a run. Where no two of those handed in have one number, no two ever have.
#[derive(Drop)]
pub struct BuildPool<B> {
    resting: Vec<B>,
    lent: Vec<Away>,
}

impl<B> Model for BuildPool<B> {
    ghost use Rattle.std.specs.Prelude.{◌+◌, ◌≤◌, vec_capacity, vec_len};
    ghost use Rattle.build_pool.specs.Pool.{PoolValue};

    ghost Value = { PoolValue B };

    ghost view = { λ p. record { resting = p.resting.items; lent = p.lent.items } };

    ghost invariant = { λ p. (vec_len p.resting + vec_len p.lent ≤ vec_capacity p.resting) ×
        (vec_len p.resting + vec_len p.lent ≤ vec_capacity p.lent) };
}

impl<B: Builder> BuildPool<B> {
    ghost use Rattle.std.specs.Prelude.{◌≡◌, ◌<◌, ◌≤◌, ◌++◌, ◌↔◌, [], ◌∷◌, All, Any, IfOk, IfSome};
    ghost use Rattle.std.specs.Prelude.{IsNone, length};
    ghost use Rattle.build_pool.specs.Pool.{AreOnce, HasEachOnce, IfLastOf, LeavesLastOf, SameIds};
    ghost use Rattle.build_pool.specs.Pool.{RecountsLastOf};
    ghost use Rattle.build_pool.specs.Pool.{faults_of};

    /// A pool of these builders, all at rest. The room for lending and taking back is made here.
    pub fn new(alloc: Global, builders: Vec<B>) -> Result<BuildPool<B>, AllocError>
        requires once { AreOnce B.number builders.items }
        ensures made { IfOk result (λ p. p ≡ record { resting = builders.items; lent = [] }) }
        ensures once { IfOk result (λ p. HasEachOnce B.number p) }
    {
        let lent = Vec::with_capacity(alloc, builders.len())?;
        Ok(BuildPool {
            resting: builders,
            lent,
        })
    }

    /// How many builders are at rest.
    pub fn resting(&self) -> usize
        ensures { result ≡ length self.now.resting }
    {
        self.resting.len()
    }

    /// One of the builders at rest, if there is one.
    pub fn lend(&mut self) -> Option<B>
        ensures some { IfSome result (λ b. (self.old.resting ≡ self.new.resting ++ b ∷ []) ×
            (self.new.lent ≡ self.old.lent ++
            record { number = B.number b; faults = B.faults b } ∷ [])) }
        ensures none { IsNone result ↔ (self.old.resting ≡ []) }
        ensures none_same { IsNone result → self.new ≡ self.old }
        ensures other { HasEachOnce B.number self.old →
            IfSome result (λ b. All (λ a. ¬ (a.number ≡ B.number b)) self.old.lent) }
        ensures ids { SameIds B.number self.old self.new }
        ensures faults { faults_of B.faults self.new ≡ faults_of B.faults self.old }
    {
        let builder = self.resting.pop()?;
        let away = Away {
            number: builder.id(),
            faults: builder.fault_count(),
        };
        add(&mut self.lent, away);
        Some(builder)
    }

    /// Takes a builder back that was lent; from now on it counts with what it has, in place of what
    /// was remembered last under its number.
    pub fn take_back(&mut self, builder: B)
        requires lent { Any (λ a. a.number ≡ B.number builder) self.old.lent }
        requires count { IfLastOf (B.number builder) self.old.lent
            (λ a. a.faults ≤ B.faults builder) }
        ensures resting { self.new.resting ≡ self.old.resting ++ builder ∷ [] }
        ensures lent { LeavesLastOf (B.number builder) self.old.lent self.new.lent }
        ensures ids { SameIds B.number self.old self.new }
        ensures faults { faults_of B.faults self.old ≤ faults_of B.faults self.new }
        ensures rose { IfLastOf (B.number builder) self.old.lent
            (λ a. a.faults < B.faults builder) →
            faults_of B.faults self.old < faults_of B.faults self.new }
    {
        take_out(&mut self.lent, builder.id());
        add(&mut self.resting, builder);
    }

    /// Takes the count of a builder that was lent and failed, and drops it. It stays among those
    /// that are away, and counts from now on with what it had.
    pub fn drop_failed(&mut self, builder: B)
        requires lent { Any (λ a. a.number ≡ B.number builder) self.old.lent }
        requires count { IfLastOf (B.number builder) self.old.lent
            (λ a. a.faults ≤ B.faults builder) }
        ensures resting { self.new.resting ≡ self.old.resting }
        ensures lent { RecountsLastOf
            (record { number = B.number builder; faults = B.faults builder })
            self.old.lent self.new.lent }
        ensures ids { SameIds B.number self.old self.new }
        ensures faults { faults_of B.faults self.old ≤ faults_of B.faults self.new }
        ensures rose { IfLastOf (B.number builder) self.old.lent
            (λ a. a.faults < B.faults builder) →
            faults_of B.faults self.old < faults_of B.faults self.new }
    {
        let number = builder.id();
        let faults = builder.fault_count();
        recount(&mut self.lent, Away { number, faults });
    }

    /// How often the builders failed, all in all.
    pub fn faults(&self) -> u128
        ensures { result ≡ faults_of B.faults self.now }
    {
        resting_faults(&self.resting) + lent_faults(&self.lent)
    }
}

/// Takes out what was remembered last of the builder of this number.
fn take_out(lent: &mut Vec<Away>, number: u32) -> Away
    requires { Any (λ a. a.number ≡ number) lent.old.items }
    ensures last { (i : ℕ) × IsLastOf number lent.old.items i result ×
        (lent.new.items ≡ remove lent.old.items i) }
    ensures sums { (f : Away → ℕ) → sum_by f lent.new.items + f result ≡ sum_by f lent.old.items }
    ensures len { vec_len lent.new + 1 ≡ vec_len lent.old }
    ensures room { vec_capacity lent.new ≡ vec_capacity lent.old }
{
    let at = last_place_of(lent, number);
    lent.remove(at)
}

/// Puts what is remembered now in place of what was remembered last under its number.
fn recount(lent: &mut Vec<Away>, away: Away) -> Away
    requires { Any (λ a. a.number ≡ away.number) lent.old.items }
    ensures last { (i : ℕ) × IsLastOf away.number lent.old.items i result ×
        (lent.new.items ≡ slice_set lent.old.items i away) }
    ensures sums { (f : Away → ℕ) →
        sum_by f lent.new.items + f result ≡ sum_by f lent.old.items + f away }
    ensures len { vec_len lent.new ≡ vec_len lent.old }
    ensures room { vec_capacity lent.new ≡ vec_capacity lent.old }
{
    let at = last_place_of(lent, away.number);
    let before = lent[at];
    lent[at] = away;
    before
}

/// Where the last entry of this number stands.
fn last_place_of(lent: &[Away], number: u32) -> usize
    requires { Any (λ a. a.number ≡ number) lent.now }
    ensures below { result < length lent.now }
    ensures last { (a : Away) × IsLastOf number lent.now result a }
{
    for at in (0..lent.len()).rev() {
        if lent[at].number == number {
            return at;
        }
    }
    unreachable!()
}

/// Puts an item behind a list that has the room.
fn add<T: Drop>(list: &mut Vec<T>, item: T)
    requires { vec_len list.old < vec_capacity list.old }
    ensures items { list.new.items ≡ list.old.items ++ item ∷ [] }
    ensures room { vec_capacity list.old ≤ vec_capacity list.new }
{
    list.push(item).unwrap();
}

/// The sum of the counts of the builders at rest.
fn resting_faults<B: Builder>(builders: &[B]) -> u128
    ensures sum { result ≡ sum_by B.faults builders.now }
    ensures small { result ≤ length builders.now * (2 ^ 64 - 1) }
{
    let mut sum = 0;
    for builder in builders {
        sum += u128::from(builder.fault_count());
    }
    sum
}

/// The sum of the counts of the builders that are lent.
fn lent_faults(lent: &[Away]) -> u128
    ensures sum { result ≡ sum_by (λ a. a.faults) lent.now }
    ensures small { result ≤ length lent.now * (2 ^ 64 - 1) }
{
    let mut sum = 0;
    for away in lent {
        sum += u128::from(away.faults);
    }
    sum
}
