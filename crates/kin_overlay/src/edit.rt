//! Edits of a chain.

ghost use Rattle.std.specs.Prelude.{◌≡◌, ◌+◌, ◌<◌, ◌≤◌, ◌++◌, length, ◌∷◌, take, drop, OnOk};
ghost use Rattle.kin_motion.specs.Edits.{edited, dropped_by_one, all_edited, dropped_by, put_by, AreFitting};

use smallvec::SmallVec;
use std::alloc::AllocError;
use std::marker::Model;

/// The points of a chain. Most of those in a tree are few, and take no memory of their own.
pub type Chain = SmallVec<u32, 4>;

/// One edit of a chain: `drop` items are taken out from `place` on, and `put` is put in their place.
/// The edits of a list are carried out in their order, so `place` is an index into the chain that the
/// earlier edits leave.
#[derive(Drop)]
pub struct ChainEdit {
    pub place: u32,
    pub drop: u32,
    pub put: SmallVec<u32, 4>,
}

impl Model for ChainEdit {
    ghost use Rattle.kin_motion.specs.Edits.{Edit};

    ghost Value = { Edit };

    ghost view = { λ e. record { place = e.place; drop = e.drop; put = e.put.items } };
}

impl ChainEdit {
    /// Carries the edit out on a list, and appends the numbers that it drops to `gone`. `spare` is a
    /// buffer, whose content is lost. After want of memory the list may be changed in part.
    #[inline(always)]
    pub fn carry_out(
        &self,
        list: &mut Chain,
        gone: &mut Vec<u32>,
        spare: &mut Vec<u32>,
    ) -> Result<(), AllocError>
        requires fits { self.now.place + self.now.drop ≤ length list.old.items }
        ensures list { OnOk result (list.new.items ≡ edited self.now list.old.items) }
        ensures gone { OnOk result (gone.new.items ≡ gone.old.items ++ dropped_by_one self.now list.old.items) }
    {
        let start = self.place as usize;
        let end = start + self.drop as usize;
        append_few(&list.as_slice()[start..end], gone)?;
        self.apply(list, spare)
    }

    /// Carries the edit out on a list. Most edits put one number, drop one or exchange one: these move the
    /// numbers behind it at most once.
    fn apply(&self, list: &mut Chain, spare: &mut Vec<u32>) -> Result<(), AllocError>
        requires fits { self.now.place + self.now.drop ≤ length list.old.items }
        ensures { OnOk result (list.new.items ≡ edited self.now list.old.items) }
    {
        let put = self.put.as_slice();
        let start = self.place as usize;
        if put.len() == 1 && self.drop == 0 {
            return list.insert(start, put[0]).map_err(|_| AllocError);
        }
        if put.len() == 1 && self.drop == 1 {
            exchange(list, start, put[0]);
            return Ok(());
        }
        if put.is_empty() && self.drop == 1 {
            list.remove(start);
            return Ok(());
        }
        put_between(list, start, start + self.drop as usize, put, spare)
    }
}

/// Puts a number in place of the one that is there.
fn exchange(list: &mut Chain, place: usize, no: u32)
    requires { place < length list.old.items }
    ensures { list.new.items ≡ take place list.old.items ++ no ∷ drop (place + 1) list.old.items }
{
    list.as_mut_slice()[place] = no;
}

/// Puts these numbers in place of a part of a list. `spare` is a buffer, whose content is lost.
fn put_between(
    list: &mut Chain,
    start: usize,
    end: usize,
    put: &[u32],
    spare: &mut Vec<u32>,
) -> Result<(), AllocError>
    requires ordered { start ≤ end }
    requires within { end ≤ length list.old.items }
    ensures { OnOk result (list.new.items ≡ take start list.old.items ++ (put.now ++ drop end list.old.items)) }
{
    spare.clear();
    spare.extend_from_slice(&list.as_slice()[end..])?;
    list.truncate(start);
    list.extend_from_slice(put)?;
    list.extend_from_slice(spare)
}

/// Appends these numbers, of which there are mostly few.
#[inline(always)]
fn append_few(numbers: &[u32], list: &mut Vec<u32>) -> Result<(), AllocError>
    ensures { OnOk result (list.new.items ≡ list.old.items ++ numbers.now) }
{
    for no in numbers {
        let Ok(()) = list.push(*no) else {
            return Err(AllocError);
        };
    }
    Ok(())
}

/// Carries edits out in their order. Each has to fit the list that the earlier ones leave. `spare` is a
/// buffer, whose content is lost.
pub fn apply_all(
    edits: &[ChainEdit],
    list: &mut Chain,
    spare: &mut Vec<u32>,
) -> Result<(), AllocError>
    requires fit { AreFitting edits.now list.old.items }
    ensures { OnOk result (list.new.items ≡ all_edited edits.now list.old.items) }
{
    for edit in edits {
        edit.apply(list, spare)?;
    }
    Ok(())
}

/// Carries edits out in their order, and appends the numbers that they drop to `gone`. Each has to
/// fit the list that the earlier ones leave.
pub fn carry_out(
    edits: &[ChainEdit],
    list: &mut Chain,
    gone: &mut Vec<u32>,
    spare: &mut Vec<u32>,
) -> Result<(), AllocError>
    requires fit { AreFitting edits.now list.old.items }
    ensures list { OnOk result (list.new.items ≡ all_edited edits.now list.old.items) }
    ensures gone { OnOk result (gone.new.items ≡ gone.old.items ++ dropped_by edits.now list.old.items) }
{
    for edit in edits {
        edit.carry_out(list, gone, spare)?;
    }
    Ok(())
}

/// Appends the numbers that the edits put.
fn note_puts(edits: &[ChainEdit], put: &mut Vec<u32>) -> Result<(), AllocError>
    ensures { OnOk result (put.new.items ≡ put.old.items ++ put_by edits.now) }
{
    for edit in edits {
        append_few(edit.put.as_slice(), put)?;
    }
    Ok(())
}

/// Carries edits out on a list, and appends the numbers that they put and drop to `put` and
/// `dropped`; those that they drop are appended to `gone` as well.
pub fn edit_list(
    edits: &[ChainEdit],
    list: &mut Chain,
    put: &mut Vec<u32>,
    dropped: &mut Vec<u32>,
    gone: &mut Vec<u32>,
    spare: &mut Vec<u32>,
) -> Result<(), AllocError>
    requires fit { AreFitting edits.now list.old.items }
    ensures list { OnOk result (list.new.items ≡ all_edited edits.now list.old.items) }
    ensures put { OnOk result (put.new.items ≡ put.old.items ++ put_by edits.now) }
    ensures dropped { OnOk result (dropped.new.items ≡ dropped.old.items ++ dropped_by edits.now list.old.items) }
    ensures gone { OnOk result (gone.new.items ≡ gone.old.items ++ dropped_by edits.now list.old.items) }
{
    if edits.is_empty() {
        return Ok(());
    }
    let before = dropped.len();
    carry_out(edits, list, dropped, spare)?;
    append_few(&dropped[before..], gone)?;
    note_puts(edits, put)
}
