//! The holder of a key, and how a seat says it in four bytes.

ghost use Rattle.std.specs.Prelude.{◌≡◌, true, Some, IfOk};
ghost use Rattle.kin_cert.specs.declared.holder.Holder.{Holder as Kept};
ghost use Rattle.kin_cert.specs.Holders.{holder_in};

use kin_num::NoMemory;

/// The id by which a key is known. A key outlives its facts: the fact may be gone by now, and the id another's.
#[derive(Clone, Copy)]
pub(crate) struct Holder {
    pub(crate) id: usize,
    /// Whether further facts may have the key, which are found by their owners and forms.
    pub(crate) is_shared: bool,
}

/// The holder that a seat has, if any.
#[inline(always)]
pub(crate) fn holder_in(word: u32) -> Option<Holder>
    ensures { result ≡ holder_in word }
{
    if word < 2 {
        return None;
    }
    Some(Holder {
        id: (word / 2 - 1) as usize,
        is_shared: word % 2 == 1,
    })
}

/// What a seat says of its holder. There is no memory for ids from `2^31 - 1` on.
pub(crate) fn word_of(holder: Holder) -> Result<u32, NoMemory>
    ensures { IfOk result (λ word. holder_in word ≡ Some holder) }
{
    let Ok(short) = u32::try_from(holder.id) else {
        return Err(NoMemory);
    };
    if short >= (1 << 31) - 1 {
        return Err(NoMemory);
    }
    Ok(2 * short + if holder.is_shared { 3 } else { 2 })
}

/// The same, or nothing where there is no memory for the id.
pub(crate) fn word_or_none(holder: Holder) -> u32
    ensures { (h : Kept) → holder_in result ≡ Some h → h ≡ holder }
{
    match word_of(holder) {
        Ok(word) => word,
        Err(_) => 0,
    }
}

/// What a seat says once it is marked as one of which there are further facts.
pub(crate) fn marked(word: u32) -> u32
    ensures { (h : Kept) → holder_in word ≡ Some h → holder_in result ≡ Some (record { id = h.id; is_shared = true }) }
{
    word / 2 * 2 + 1
}
