//! A script, as it is read.

ghost use Rattle.std.specs.Prelude.{◌≡◌, ◌==◌, [], ◌∷◌, ◌++◌, length, OnOk, OnErr};

use crate::command::Command;
use kin_motion::Keep;
use std::alloc::{AllocError, Global};
use std::marker::Model;

/// Items in a row. A contract sees them as a list.
#[derive(Drop)]
pub struct Row<T: Drop> {
    items: Vec<T>,
}

/// The kept structures, in the order of their lines: the first has number 0.
pub type Keeps = Row<Keep>;

/// The commands, each with the number of its line, by rising number.
pub type Commands = Row<(u32, Command)>;

impl<T: Drop> Model for Row<T> {
    ghost use Rattle.std.specs.Prelude.{List};

    ghost Value = { List T };

    ghost view = { λ r. r.items.items };
}

impl<T: Drop> Row<T> {
    /// No items.
    pub fn new(alloc: Global) -> Row<T>
        ensures { result ≡ [] }
    {
        Row {
            items: Vec::new(alloc),
        }
    }

    /// The list of these items.
    pub fn from_vec(items: Vec<T>) -> Row<T>
        ensures { result ≡ items.items }
    {
        Row { items }
    }

    /// Its items, given back.
    pub fn into_vec(self) -> Vec<T>
        ensures { result.items ≡ self }
    {
        self.items
    }

    /// Its items, lent.
    pub fn as_slice(&self) -> &[T]
        ensures { result.now ≡ self.now }
    {
        self.items.as_slice()
    }

    /// Adds an item after the others.
    pub fn push(&mut self, item: T) -> Result<(), AllocError>
        ensures ok { OnOk result (self.new ≡ self.old ++ item ∷ []) }
        ensures err { OnErr result (self.new ≡ self.old) }
    {
        self.items.push(item)?;
        Ok(())
    }

    /// How many items it has.
    pub fn len(&self) -> usize
        ensures { result ≡ length self.now }
    {
        self.items.len()
    }

    /// Whether it has none.
    pub fn is_empty(&self) -> bool
        ensures { result ≡ (length self.now == 0) }
    {
        self.items.is_empty()
    }
}

/// What a whole script says.
#[derive(Drop)]
pub struct Script {
    /// Points have numbers below `2^size`.
    pub size: u32,
    pub keeps: Keeps,
    /// Whether failures are printed as they are passed.
    pub journal: bool,
    pub lines: Commands,
}
