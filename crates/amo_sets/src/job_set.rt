//! A set of jobs, one bit a job.
ghost use Rattle.std.specs.Prelude.{◌≡◌, ◌↔◌, ◌⊎◌, ℕ, ◌+◌, ◌*◌, ◌/◌, ◌<◌, ◌≤◌, true, false, IsTrue, IsNone, IfOk, IfSome, count_ones, length, replicate, unwrap_or};
ghost use Rattle.amo_sets.specs.Bits.{bit, is_one, is_without};
ghost use Rattle.amo_sets.specs.Lists.{numbered, put};
ghost use Rattle.amo_sets.specs.Rank.{count, has_rank, number_of_rank};

use crate::lists::filled;
use std::alloc::{AllocError, Global};
use std::marker::Model;

/// `JobSet`: a bitset of jobs within `1..=n`. Contracts see it as a list of `n` truth values, one a
/// job, in the order of the jobs.
///
/// Only `full`, `empty` and `copy` take memory: 8 bytes for each 64 jobs that are begun. To add, to
/// take out, to test and to count members takes constant time. `count_without`, `rank_without` and
/// `clear` take time in proportion to `n / 64`.
///
/// # Examples
///
/// ```
/// use amo_sets::JobSet;
///
/// let mut set = JobSet::empty(rt.alloc(), 9)?;
/// for job in [7, 2, 4] {
///     set.add(job);
/// }
/// set.take_out(4);
/// assert_eq!(rt; set.len(), 2);
/// assert!(rt; set.has(7) && !set.has(4));
/// assert!(rt; set.covers(9) && !set.covers(10));
/// ```
#[derive(Drop)]
pub struct JobSet {
    words: Vec<u64>,
    range: u32,
    len: u32,
}

impl Model for JobSet {
    ghost use Rattle.std.specs.Prelude.{◌≡◌, ℕ, ◌+◌, ◌/◌, ◌<◌, ◌^◌, Bool, false, List, vec_len};
    ghost use Rattle.std.specs.Vec.{vec_capacity};
    ghost use Rattle.amo_sets.specs.Bits.{bit};
    ghost use Rattle.amo_sets.specs.Lists.{table};
    ghost use Rattle.amo_sets.specs.Rank.{count};

    ghost Value = { List Bool };

    ghost view = { λ s. table s.range (bit s.words.items) };

    ghost invariant = { λ s. record {
      size : vec_len s.words ≡ (s.range + 63) / 64;
      room : vec_capacity s.words ≡ (s.range + 63) / 64;
      small : s.range < 2 ^ 32;
      spare : (j : ℕ) → s.range < j → bit s.words.items j ≡ false;
      kept : s.len ≡ count s.range (bit s.words.items);
    } };
}

impl JobSet {
    /// Returns the set of all jobs of `1..=n`. It takes memory once.
    ///
    /// # Errors
    ///
    /// `AllocError` if memory is refused.
    ///
    /// # Examples
    ///
    /// ```
    /// use amo_sets::JobSet;
    ///
    /// let all = JobSet::full(rt.alloc(), 65)?;
    /// assert_eq!(rt; all.len(), 65);
    /// assert_eq!(rt; all.words(), [u64::MAX, 1].as_slice());
    /// ```
    pub fn full(alloc: Global, n: u32) -> Result<JobSet, AllocError>
        ensures { IfOk result (λ s. s ≡ replicate n true) }
    {
        let mut words = filled(alloc, (n as usize + 63) / 64, u64::MAX)?;
        let rest = n % 64;
        if rest != 0 {
            words[n as usize / 64] = (1 << rest) - 1;
        }
        Ok(JobSet {
            words,
            range: n,
            len: n,
        })
    }

    /// Returns the set with no job of `1..=n`. It takes memory once.
    ///
    /// # Errors
    ///
    /// `AllocError` if memory is refused.
    pub fn empty(alloc: Global, n: u32) -> Result<JobSet, AllocError>
        ensures { IfOk result (λ s. s ≡ replicate n false) }
    {
        let words = filled(alloc, (n as usize + 63) / 64, 0u64)?;
        Ok(JobSet {
            words,
            range: n,
            len: 0,
        })
    }

    /// Returns another set with the same range and the same members. It takes memory once.
    ///
    /// # Errors
    ///
    /// `AllocError` if memory is refused. This set stays as it is.
    ///
    /// # Examples
    ///
    /// ```
    /// use amo_sets::JobSet;
    ///
    /// let mut first = JobSet::full(rt.alloc(), 9)?;
    /// let second = first.copy(rt.alloc())?;
    /// first.clear();
    /// assert!(rt; first.is_empty() && first.range() == 9);
    /// assert_eq!(rt; second.len(), 9);
    /// ```
    pub fn copy(&self, alloc: Global) -> Result<JobSet, AllocError>
        ensures { IfOk result (λ s. s ≡ self.now) }
    {
        let mut words = filled(alloc, self.words.len(), 0u64)?;
        words.copy_from_slice(self.words.as_slice());
        Ok(JobSet {
            words,
            range: self.range,
            len: self.len,
        })
    }

    /// Returns the `n` of `1..=n`.
    pub fn range(&self) -> u32
        ensures { result ≡ length self.now }
    {
        self.range
    }

    /// Returns true if the job is within `1..=n`, whether it is a member or not.
    pub fn covers(&self, j: u32) -> bool
        ensures { IsTrue result ↔ ((1 ≤ j) × (j ≤ length self.now)) }
    {
        1 <= j && j <= self.range
    }

    /// Returns true if the job is a member.
    pub fn has(&self, j: u32) -> bool
        requires low { 1 ≤ j }
        requires high { j ≤ length self.now }
        ensures { result ≡ numbered false self.now j }
    {
        let k = (j - 1) as usize;
        (self.words[k / 64] >> (k % 64)) & 1 == 1
    }

    /// Returns how many members there are.
    pub fn len(&self) -> u32
        ensures { result ≡ count (length self.now) (numbered false self.now) }
    {
        self.len
    }

    /// Returns true if there is no member.
    pub fn is_empty(&self) -> bool
        ensures { IsTrue result ↔ (count (length self.now) (numbered false self.now) ≡ 0) }
    {
        self.len() == 0
    }

    /// Returns the members of word q, counted from 0, that the other set lacks, as bits of a word.
    fn word_without(&self, other: &JobSet, q: usize) -> u64
        requires same { length self.now ≡ length other.now }
        requires within { q < (length self.now + 63) / 64 }
        ensures { (r : ℕ) → 1 ≤ r → r ≤ 64 → is_one result r ≡ is_without self.now other.now (64 * q + r) }
    {
        self.words[q] & !other.words[q]
    }

    /// Returns how many members the other set lacks.
    ///
    /// # Examples
    ///
    /// ```
    /// use amo_sets::JobSet;
    ///
    /// let all = JobSet::full(rt.alloc(), 9)?;
    /// let mut some = JobSet::empty(rt.alloc(), 9)?;
    /// some.add(1);
    /// some.add(3);
    /// assert_eq!(rt; all.count_without(&some), 7);
    /// assert!(rt; all.rank_without(&some, 1) == Some(2));
    /// assert!(rt; all.rank_without(&some, 8) == None);
    /// ```
    pub fn count_without(&self, other: &JobSet) -> u32
        requires { length self.now ≡ length other.now }
        ensures { result ≡ count (length self.now) (is_without self.now other.now) }
    {
        let mut total = 0;
        for q in 0..self.words.len() {
            total += self.word_without(other, q).count_ones();
        }
        total
    }

    /// Returns the i-th smallest member that the other set lacks, counted from 1. It returns `None`
    /// if i is 0 or if the other set lacks fewer than i members.
    pub fn rank_without(&self, other: &JobSet, i: u32) -> Option<u32>
        requires { length self.now ≡ length other.now }
        ensures none { IsNone result ↔ ((i ≡ 0) ⊎ (count (length self.now) (is_without self.now other.now) < i)) }
        ensures some { IfSome result (λ e. (1 ≤ e) × (e ≤ length self.now) × (has_rank (is_without self.now other.now) i e ≡ true)) }
        ensures number { unwrap_or result 0 ≡ number_of_rank (length self.now) (is_without self.now other.now) i }
    {
        if i == 0 {
            return None;
        }
        let mut left = i;
        for q in 0..self.words.len() {
            let word = self.word_without(other, q);
            let ones = word.count_ones();
            if left <= ones {
                return Some(64 * q as u32 + place_of(word, left));
            }
            left -= ones;
        }
        None
    }

    /// Returns the bits, 64 jobs a word: job j is bit `(j - 1) mod 64` of word `(j - 1) / 64`. All
    /// other bits are 0.
    pub fn words(&self) -> &[u64]
        ensures len { length result.now ≡ (length self.now + 63) / 64 }
        ensures bits { (j : ℕ) → bit result.now j ≡ numbered false self.now j }
    {
        self.words.as_slice()
    }

    /// Adds the job. If the job is a member, nothing changes. It takes no memory.
    pub fn add(&mut self, j: u32)
        requires low { 1 ≤ j }
        requires high { j ≤ length self.old }
        ensures { self.new ≡ put self.old j true }
    {
        if !self.has(j) {
            let k = (j - 1) as usize;
            self.words[k / 64] |= 1 << (k % 64);
            self.len += 1;
        }
    }

    /// Takes out the job. If the job isn't a member, nothing changes. It takes no memory.
    pub fn take_out(&mut self, j: u32)
        requires low { 1 ≤ j }
        requires high { j ≤ length self.old }
        ensures { self.new ≡ put self.old j false }
    {
        if self.has(j) {
            let k = (j - 1) as usize;
            self.words[k / 64] &= !(1 << (k % 64));
            self.len -= 1;
        }
    }

    /// Takes out all jobs. The range stays.
    pub fn clear(&mut self)
        ensures { self.new ≡ replicate (length self.old) false }
    {
        self.words.fill(0);
        self.len = 0;
    }
}

/// Finds the byte that has the i-th bit that is 1, the lowest first. It returns the place of the
/// byte's first bit, and how many bits of the byte up to the i-th are 1. If the word has fewer such
/// bits, it returns 64 and how many are missing.
fn byte_of(word: u64, i: u32) -> (u32, u32)
    requires { 1 ≤ i }
    ensures within { result.0 ≤ 64 }
    ensures some { 1 ≤ result.1 }
    ensures before { count result.0 (is_one word) + result.1 ≡ i }
{
    let mut left = i;
    for b in 0..8 {
        let here = ((word >> (8 * b)) % 256).count_ones();
        if left <= here {
            return (8 * b, left);
        }
        left -= here;
    }
    (64, left)
}

/// Returns the place, from 1, of the i-th bit of the word that is 1, the lowest first.
fn place_of(word: u64, i: u32) -> u32
    requires low { 1 ≤ i }
    requires high { i ≤ count_ones word }
    ensures within { result ≤ 64 }
    ensures rank { has_rank (is_one word) i result ≡ true }
{
    let (start, mut left) = byte_of(word, i);
    for r in start..64 {
        if (word >> r) & 1 == 1 {
            if left == 1 {
                return r + 1;
            }
            left -= 1;
        }
    }
    unreachable!()
}
