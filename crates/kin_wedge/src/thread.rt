//! The words of slots that are threaded.

ghost use Rattle.std.specs.Prelude.{◌≡◌, ◌<◌, ◌≤◌, ◌^◌, ℕ, List, Some, None, length, slice_get, slice_set};
ghost use Rattle.kin_wedge.specs.declared.thread.Thread.{Thread as Threaded};
ghost use Rattle.kin_wedge.specs.Threads.{IsThreaded, PointsAt, changed, led_from, linked, named, unlinked, web};

/// The word of no slot.
pub const NONE: u16 = u16::MAX;

/// The words of a slot beside that of the slot at which it points: the next and the previous one of those that point
/// there, and the first of those that point at it.
#[derive(Clone, Copy)]
pub struct Thread {
    pub next: u16,
    pub previous: u16,
    pub first: u16,
}

/// The slot that a word names.
#[inline(always)]
pub fn named(word: u16) -> Option<u32>
    ensures { result ≡ named word }
{
    if word < NONE {
        Some(u32::from(word))
    } else {
        None
    }
}

#[inline(always)]
fn set_target(words: &mut Vec<u16>, slot: u32, target: u16)
    requires { slot < length words.old.items }
    ensures web { (ts : List Threaded) → web words.new.items ts ≡ record (web words.old.items ts) { targets = slice_set (web words.old.items ts).targets slot (named target) } }
    ensures length { length words.new.items ≡ length words.old.items }
{
    words[slot as usize] = target;
}

#[inline(always)]
fn set_next(threads: &mut Vec<Thread>, slot: u32, next: u16)
    requires { slot < length threads.old.items }
    ensures web { (ws : List ℕ) → web ws threads.new.items ≡ record (web ws threads.old.items) { next = changed (web ws threads.old.items).next (Some slot) (named next) } }
    ensures length { length threads.new.items ≡ length threads.old.items }
{
    threads[slot as usize].next = next;
}

#[inline(always)]
fn set_previous(threads: &mut Vec<Thread>, slot: u32, previous: u16)
    requires { slot < length threads.old.items }
    ensures web { (ws : List ℕ) → web ws threads.new.items ≡ record (web ws threads.old.items) { previous = changed (web ws threads.old.items).previous (Some slot) (named previous) } }
    ensures length { length threads.new.items ≡ length threads.old.items }
{
    threads[slot as usize].previous = previous;
}

#[inline(always)]
fn set_first(threads: &mut Vec<Thread>, slot: u32, first: u16)
    requires { slot < length threads.old.items }
    ensures web { (ws : List ℕ) → web ws threads.new.items ≡ record (web ws threads.old.items) { first = changed (web ws threads.old.items).first (Some slot) (named first) } }
    ensures length { length threads.new.items ≡ length threads.old.items }
{
    threads[slot as usize].first = first;
}

/// Lets a slot be the next one after the previous one, or the first of those that point at a target where there is
/// no previous one.
#[inline(always)]
fn follow(threads: &mut Vec<Thread>, previous: u16, target: u32, next: u16)
    requires target { target < length threads.old.items }
    requires previous { (p : ℕ) → named previous ≡ Some p → p < length threads.old.items }
    ensures web { (ws : List ℕ) → web ws threads.new.items ≡ record (web ws threads.old.items) { next = changed (web ws threads.old.items).next (named previous) (named next); first = changed (web ws threads.old.items).first (led_from (named previous) target) (named next) } }
    ensures length { length threads.new.items ≡ length threads.old.items }
{
    match named(previous) {
        Some(slot) => set_next(threads, slot, next),
        None => set_first(threads, target, next),
    }
}

/// Lets a slot be the previous one of the next one, where there is a next one.
#[inline(always)]
fn precede(threads: &mut Vec<Thread>, next: u16, previous: u16)
    requires { (n : ℕ) → named next ≡ Some n → n < length threads.old.items }
    ensures web { (ws : List ℕ) → web ws threads.new.items ≡ record (web ws threads.old.items) { previous = changed (web ws threads.old.items).previous (named next) (named previous) } }
    ensures length { length threads.new.items ≡ length threads.old.items }
{
    if let Some(slot) = named(next) {
        set_previous(threads, slot, previous);
    }
}

/// Takes a slot out of those that point at a target.
#[inline(always)]
pub fn unlink(words: &mut Vec<u16>, threads: &mut Vec<Thread>, slot: u32, target: u32)
    requires even { length threads.old.items ≡ length words.old.items }
    requires threaded { IsThreaded (web words.old.items threads.old.items) }
    requires points { PointsAt (web words.old.items threads.old.items) slot target }
    ensures web { web words.new.items threads.new.items ≡ unlinked (web words.old.items threads.old.items) slot target }
    ensures even { length threads.new.items ≡ length words.new.items }
{
    let Thread { next, previous, .. } = threads[slot as usize];
    follow(threads, previous, target, next);
    precede(threads, next, previous);
    set_target(words, slot, NONE);
}

/// Puts a slot in front of those that point at a target.
#[inline(always)]
pub fn link(words: &mut Vec<u16>, threads: &mut Vec<Thread>, slot: u32, target: u32)
    requires small { length words.old.items ≤ 2 ^ 15 }
    requires even { length threads.old.items ≡ length words.old.items }
    requires threaded { IsThreaded (web words.old.items threads.old.items) }
    requires slot { slot < length words.old.items }
    requires target { target < length words.old.items }
    ensures web { web words.new.items threads.new.items ≡ linked (web words.old.items threads.old.items) slot target }
    ensures even { length threads.new.items ≡ length words.new.items }
{
    let first = threads[target as usize].first;
    set_target(words, slot, target as u16);
    set_next(threads, slot, first);
    set_previous(threads, slot, NONE);
    precede(threads, first, slot as u16);
    set_first(threads, target, slot as u16);
}
