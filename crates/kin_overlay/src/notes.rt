//! What is noted of waiting edits.

ghost use Rattle.std.specs.Prelude.{◌≡◌, [], ◌++◌, IsTrue, OnOk};
ghost use Rattle.kin_motion.specs.Edits.{all_edited, dropped_by, put_by, AreFitting};
ghost use Rattle.kin_overlay.specs.Notes.{AreBlank};

use crate::edit::{Chain, ChainEdit, edit_list};
use std::alloc::{AllocError, Global};
use std::marker::Model;

/// The numbers that the edits given since the last `settle` put and drop.
#[derive(Drop)]
struct Notes {
    /// Those that are dropped from either chain.
    gone: Vec<u32>,
    /// Those that are put into A, and into B.
    put_a: Vec<u32>,
    put_b: Vec<u32>,
    /// Those that are dropped from A, and from B.
    drop_a: Vec<u32>,
    drop_b: Vec<u32>,
    /// A buffer for numbers.
    spare: Vec<u32>,
}

impl Notes {
    /// Nothing is noted.
    fn new(alloc: Global) -> Notes
        ensures gone { result.gone.items ≡ [] }
        ensures put_a { result.put_a.items ≡ [] }
        ensures put_b { result.put_b.items ≡ [] }
        ensures drop_a { result.drop_a.items ≡ [] }
        ensures drop_b { result.drop_b.items ≡ [] }
    {
        Notes {
            gone: Vec::new(alloc),
            put_a: Vec::new(alloc),
            put_b: Vec::new(alloc),
            drop_a: Vec::new(alloc),
            drop_b: Vec::new(alloc),
            spare: Vec::new(alloc),
        }
    }

    /// Whether nothing is noted.
    fn are_blank(&self) -> bool
        ensures gone { IsTrue result → self.now.gone.items ≡ [] }
        ensures put_a { IsTrue result → self.now.put_a.items ≡ [] }
        ensures put_b { IsTrue result → self.now.put_b.items ≡ [] }
        ensures drop_a { IsTrue result → self.now.drop_a.items ≡ [] }
        ensures drop_b { IsTrue result → self.now.drop_b.items ≡ [] }
    {
        self.gone.is_empty()
            && self.put_a.is_empty()
            && self.put_b.is_empty()
            && self.drop_a.is_empty()
            && self.drop_b.is_empty()
    }

    /// Forgets everything. The memory is kept.
    fn clear(&mut self)
        ensures gone { self.new.gone.items ≡ [] }
        ensures put_a { self.new.put_a.items ≡ [] }
        ensures put_b { self.new.put_b.items ≡ [] }
        ensures drop_a { self.new.drop_a.items ≡ [] }
        ensures drop_b { self.new.drop_b.items ≡ [] }
    {
        self.gone.clear();
        self.put_a.clear();
        self.put_b.clear();
        self.drop_a.clear();
        self.drop_b.clear();
    }

    /// Carries edits out on the chain of A, and notes them.
    fn edit_a(&mut self, edits: &[ChainEdit], chain: &mut Chain) -> Result<(), AllocError>
        requires fit { AreFitting edits.now chain.old.items }
        ensures chain { OnOk result (chain.new.items ≡ all_edited edits.now chain.old.items) }
        ensures gone { OnOk result (self.new.gone.items ≡ self.old.gone.items ++ dropped_by edits.now chain.old.items) }
        ensures put { OnOk result (self.new.put_a.items ≡ self.old.put_a.items ++ put_by edits.now) }
        ensures dropped { OnOk result (self.new.drop_a.items ≡ self.old.drop_a.items ++ dropped_by edits.now chain.old.items) }
        ensures put_b { self.new.put_b.items ≡ self.old.put_b.items }
        ensures drop_b { self.new.drop_b.items ≡ self.old.drop_b.items }
    {
        let (put, dropped) = (&mut self.put_a, &mut self.drop_a);
        edit_list(edits, chain, put, dropped, &mut self.gone, &mut self.spare)
    }

    /// The same of B.
    fn edit_b(&mut self, edits: &[ChainEdit], chain: &mut Chain) -> Result<(), AllocError>
        requires fit { AreFitting edits.now chain.old.items }
        ensures chain { OnOk result (chain.new.items ≡ all_edited edits.now chain.old.items) }
        ensures gone { OnOk result (self.new.gone.items ≡ self.old.gone.items ++ dropped_by edits.now chain.old.items) }
        ensures put { OnOk result (self.new.put_b.items ≡ self.old.put_b.items ++ put_by edits.now) }
        ensures dropped { OnOk result (self.new.drop_b.items ≡ self.old.drop_b.items ++ dropped_by edits.now chain.old.items) }
        ensures put_a { self.new.put_a.items ≡ self.old.put_a.items }
        ensures drop_a { self.new.drop_a.items ≡ self.old.drop_a.items }
    {
        let (put, dropped) = (&mut self.put_b, &mut self.drop_b);
        edit_list(edits, chain, put, dropped, &mut self.gone, &mut self.spare)
    }
}

/// Notes in a box, or none where nothing was noted yet: of merges that share the memory for
/// their notes all but one have none.
#[derive(Drop)]
pub struct Pad {
    notes: Option<Box<Notes>>,
}

impl Model for Pad {
    ghost use Rattle.std.specs.Prelude.{option_map};
    ghost use Rattle.kin_overlay.specs.Notes.{Noted, noted};

    ghost Value = { Noted };

    ghost view = { λ p. noted (option_map (λ b. b.value) p.notes) };
}

impl Pad {
    /// Nothing is noted, which takes no memory.
    pub fn none() -> Pad
        ensures { AreBlank result }
    {
        Pad { notes: None }
    }

    /// Whether nothing is noted.
    #[inline(always)]
    pub fn are_blank(&self) -> bool
        ensures { IsTrue result → AreBlank self.now }
    {
        match &self.notes {
            Some(notes) => notes.are_blank(),
            None => true,
        }
    }

    /// Forgets everything. The memory is kept.
    pub fn clear(&mut self)
        ensures { AreBlank self.new }
    {
        if let Some(notes) = &mut self.notes {
            notes.clear();
        }
    }

    /// The numbers that are dropped from either chain.
    pub fn gone(&self) -> &[u32]
        ensures { result.now ≡ self.now.gone }
    {
        match &self.notes {
            Some(notes) => &notes.gone,
            None => &[],
        }
    }

    /// Those that are put into A.
    pub fn put_a(&self) -> &[u32]
        ensures { result.now ≡ self.now.put_a }
    {
        match &self.notes {
            Some(notes) => &notes.put_a,
            None => &[],
        }
    }

    /// Those that are put into B.
    pub fn put_b(&self) -> &[u32]
        ensures { result.now ≡ self.now.put_b }
    {
        match &self.notes {
            Some(notes) => &notes.put_b,
            None => &[],
        }
    }

    /// Makes a place for notes, if there is none.
    fn open(&mut self, alloc: Global) -> Result<(), AllocError>
        ensures { self.new ≡ self.old }
    {
        if self.notes.is_none() {
            self.notes = Some(Box::new(alloc, Notes::new(alloc))?);
        }
        Ok(())
    }

    /// Carries edits out on the chain of A, and notes them. None take no place.
    pub fn edit_a(
        &mut self,
        alloc: Global,
        edits: &[ChainEdit],
        chain: &mut Chain,
    ) -> Result<(), AllocError>
        requires fit { AreFitting edits.now chain.old.items }
        ensures chain { OnOk result (chain.new.items ≡ all_edited edits.now chain.old.items) }
        ensures noted { OnOk result (self.new ≡ record self.old { gone = self.old.gone ++ dropped_by edits.now chain.old.items; put_a = self.old.put_a ++ put_by edits.now; drop_a = self.old.drop_a ++ dropped_by edits.now chain.old.items }) }
    {
        if edits.is_empty() {
            return Ok(());
        }
        self.open(alloc)?;
        match &mut self.notes {
            Some(notes) => notes.edit_a(edits, chain),
            None => Err(AllocError),
        }
    }

    /// The same of B.
    pub fn edit_b(
        &mut self,
        alloc: Global,
        edits: &[ChainEdit],
        chain: &mut Chain,
    ) -> Result<(), AllocError>
        requires fit { AreFitting edits.now chain.old.items }
        ensures chain { OnOk result (chain.new.items ≡ all_edited edits.now chain.old.items) }
        ensures noted { OnOk result (self.new ≡ record self.old { gone = self.old.gone ++ dropped_by edits.now chain.old.items; put_b = self.old.put_b ++ put_by edits.now; drop_b = self.old.drop_b ++ dropped_by edits.now chain.old.items }) }
    {
        if edits.is_empty() {
            return Ok(());
        }
        self.open(alloc)?;
        match &mut self.notes {
            Some(notes) => notes.edit_b(edits, chain),
            None => Err(AllocError),
        }
    }
}
