//! The legs that are planned.

ghost use Rattle.std.specs.Prelude.{◌≡◌, ◌⊎◌, ℕ, ◌+◌, ◌++◌, ◌<◌, ◌≤◌, ◌^◌, List, None, [], length, map, slice_get, IfOk, IfSome, OnOk, OnErr, option_to_list};
ghost use Rattle.std.specs.VecDeque.{deque_items, deque_len, deque_capacity};
ghost use Rattle.kin_motion.specs.Numbers.{put_in};
ghost use Rattle.kin_legs.specs.declared.leg.Leg.{Leg as Planned};
ghost use Rattle.kin_legs.specs.Filing.{leg_in, legs_in, filed_under};
ghost use Rattle.kin_legs.specs.Planning.{is_earlier, last, legs_of, without, IsRising};

use crate::leg::Leg;
use kin_motion::Motion;
use kin_num::NoMemory;
use std::alloc::{AllocError, Global};
use std::collections::{BTreeMap, VecDeque};
use std::marker::Model;

/// Legs of points, by rising instant, and by rising number where they begin together.
///
/// The first leg of all and the last one of a number are found without a search. To add or to take one away takes the
/// logarithm of the number of legs.
#[derive(Drop)]
pub struct Legs {
    alloc: Global,
    size: u32,
    /// All legs, by instant and number.
    by_time: BTreeMap<(u32, u32), Motion>,
    /// The legs of each number, the earliest in front. A number without a queue never had one.
    by_point: Vec<VecDeque<Leg>>,
}

impl Model for Legs {
    ghost use Rattle.std.specs.Prelude.{map};
    ghost use Rattle.std.specs.VecDeque.{deque_items};
    ghost use Rattle.kin_legs.specs.Planning.{Planning};
    ghost use Rattle.kin_legs.specs.Filing.{legs_in, AreFiled};

    ghost Value = { Planning };

    ghost view = { λ k. record { size = k.size; legs = legs_in k.by_time.entries } };

    ghost invariant = { λ k. AreFiled k.size (legs_in k.by_time.entries) (map deque_items k.by_point.items) };
}

impl Legs {
    /// No legs, with room for the numbers below `2^size`.
    pub fn new(alloc: Global, size: u32) -> Result<Legs, NoMemory>
        requires low { 1 ≤ size }
        requires high { size ≤ 12 }
        ensures { IfOk result (λ k. k ≡ record { size = size; legs = [] }) }
    {
        Ok(Legs {
            alloc,
            size,
            by_time: BTreeMap::new(alloc),
            by_point: Vec::new(alloc),
        })
    }

    /// Plans a leg. It begins below `2^31`, after all others of its number. `NoMemory` changes nothing.
    pub fn add(&mut self, leg: Leg) -> Result<(), NoMemory>
        requires within { leg.no < 2 ^ self.old.size }
        requires soon { leg.at < 2 ^ 31 }
        requires later { IfSome (last (legs_of leg.no self.old.legs)) (λ l. l.at < leg.at) }
        ensures ok { OnOk result (self.new ≡ record self.old { legs = put_in is_earlier leg self.old.legs }) }
        ensures err { OnErr result (self.new ≡ self.old) }
    {
        make_room(&mut self.by_point, self.alloc, leg.no)?;
        let Ok(_) = self.by_time.insert((leg.at, leg.no), leg.m) else {
            return Err(NoMemory);
        };
        self.by_point[leg.no as usize].push_back_reserved(leg);
        Ok(())
    }

    /// The last leg of a number, or `None` exactly where it has none.
    pub fn last(&self, no: u32) -> Option<Leg>
        ensures { result ≡ last (legs_of no self.now.legs) }
    {
        if no as usize >= self.by_point.len() {
            return None;
        }
        self.by_point[no as usize].back().copied()
    }

    /// Takes all legs of a number away.
    pub fn drop_of(&mut self, no: u32)
        ensures { self.new ≡ record self.old { legs = without no self.old.legs } }
    {
        if (no as usize) < self.by_point.len() {
            strike_all(&mut self.by_time, no, &mut self.by_point[no as usize]);
        }
    }

    /// The first leg, or `None` exactly where there is none.
    pub fn first(&self) -> Option<Leg>
        ensures { (rest : List Planned) × (self.now.legs ≡ option_to_list result ++ rest) × (result ≡ None → self.now.legs ≡ []) }
    {
        match self.by_time.first_key_value() {
            Some((key, m)) => Some(leg_in(key, m)),
            None => None,
        }
    }

    /// Takes the first leg away, if there is one.
    pub fn take_first(&mut self) -> Option<Leg>
        ensures size { self.new.size ≡ self.old.size }
        ensures legs { self.old.legs ≡ option_to_list result ++ self.new.legs }
        ensures none { result ≡ None → self.old.legs ≡ [] }
    {
        let ((at, no), m) = self.by_time.pop_first()?;
        self.by_point[no as usize].pop_front();
        Some(Leg { at, no, m })
    }

    /// Does nothing: in the proof of its caller it recalls that the legs rise.
    pub fn recall_rising(&self)
        ensures { IsRising self.now.legs }
    {
        let _ = &self.size;
    }
}

/// The leg at an instant and of a number.
fn leg_in(key: &(u32, u32), m: &Motion) -> Leg
    ensures { result ≡ leg_in (key.now, m.now) }
{
    let (at, no) = *key;
    Leg { at, no, m: *m }
}

/// Makes so many queues at least.
fn grow(queues: &mut Vec<VecDeque<Leg>>, alloc: Global, count: usize) -> Result<(), AllocError>
    ensures filed { (i : ℕ) → filed_under i (map deque_items queues.new.items) ≡ filed_under i (map deque_items queues.old.items) }
    ensures few { (length queues.new.items ≤ length queues.old.items) ⊎ (length queues.new.items ≤ count) }
    ensures enough { OnOk result (count ≤ length queues.new.items) }
{
    while queues.len() < count {
        queues.push(VecDeque::new(alloc)).map_err(|_| AllocError)?;
    }
    Ok(())
}

/// Makes room for one leg more in a queue.
fn make_room(queues: &mut Vec<VecDeque<Leg>>, alloc: Global, no: u32) -> Result<(), AllocError>
    ensures filed { (i : ℕ) → filed_under i (map deque_items queues.new.items) ≡ filed_under i (map deque_items queues.old.items) }
    ensures few { (length queues.new.items ≤ length queues.old.items) ⊎ (length queues.new.items ≤ no + 1) }
    ensures enough { OnOk result (no < length queues.new.items) }
    ensures room { OnOk result (IfSome (slice_get queues.new.items no) (λ q. deque_len q < deque_capacity q)) }
{
    grow(queues, alloc, no as usize + 1)?;
    queues[no as usize].reserve(1)
}

/// Takes the legs of one number, which are in a queue, out of all legs.
fn strike_all(legs: &mut BTreeMap<(u32, u32), Motion>, no: u32, queue: &mut VecDeque<Leg>)
    requires rising { IsRising (legs_in legs.old.entries) }
    requires filed { queue.old.items ≡ legs_of no (legs_in legs.old.entries) }
    ensures rising { IsRising (legs_in legs.new.entries) }
    ensures legs { legs_in legs.new.entries ≡ without no (legs_in legs.old.entries) }
    ensures queue { queue.new.items ≡ [] }
{
    while let Some(leg) = queue.pop_front() {
        let _ = legs.remove(&(leg.at, no));
    }
}
