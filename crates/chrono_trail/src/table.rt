//! The items by variable, with the value of each in a table of its own.
ghost use Rattle.std.specs.Prelude.{◌≡◌, ◌<◌, ◌≤◌, ◌^◌, length, nat_abs, replicate, slice_index_or};
ghost use Rattle.std.specs.Prelude.{slice_set, Some, None, IfOk};
ghost use Rattle.chrono_trail.specs.Items.{value_in, level_if_true};

use crate::item::{Item, Kind};
use std::alloc::{AllocError, Global};
use std::marker::Model;

/// The literal of a place without an item. It is that of no variable.
const NO_LITERAL: i32 = i32::MIN;

/// What stands at a place without an item.
const NO_ITEM: Item = Item {
    lit: NO_LITERAL,
    level: 0,
    kind: Kind::Assumed,
};

/// For each variable its item, if it has one. The literal of the item stands once more in a table
/// that has nothing else, so that the values of many variables are close together.
#[derive(Debug, Drop)]
pub struct ItemTable {
    items: Vec<Item>,
    /// 0 where there is no item.
    lits: Vec<i32>,
}

impl Model for ItemTable {
    ghost use Rattle.std.specs.Prelude.{List, Option};
    ghost use Rattle.chrono_trail.specs.declared.item.Item.{Item};
    ghost use Rattle.std.specs.Prelude.{map};
    ghost use Rattle.chrono_trail.specs.Tables.{IsTable, item_at};

    ghost Value = { List (Option Item) };

    ghost view = { λ t. map item_at t.items.items };

    ghost invariant = { λ t. IsTable t.items.items t.lits.items };
}

impl ItemTable {
    /// A table of so many places, without an item.
    pub fn make(alloc: Global, places: usize) -> Result<ItemTable, AllocError>
        requires { places ≤ 2 ^ 31 }
        ensures { IfOk result (λ table. table ≡ replicate places None) }
    {
        Ok(ItemTable {
            items: vec![in alloc; NO_ITEM; places]?,
            lits: vec![in alloc; 0i32; places]?,
        })
    }

    /// The item of a variable.
    pub fn item(&self, variable: u32) -> Option<Item>
        requires { variable < length self.now }
        ensures { result ≡ slice_index_or self.now variable None }
    {
        let item = self.items[variable as usize];
        if item.lit == NO_LITERAL {
            None
        } else {
            Some(item)
        }
    }

    /// The level of a literal that is that of its variable's item.
    pub fn level_of_true(&self, lit: i32) -> Option<u32>
        requires { nat_abs lit < length self.now }
        ensures { result ≡ level_if_true lit (slice_index_or self.now (nat_abs lit) None) }
    {
        let item = self.items[lit.unsigned_abs() as usize];
        if item.lit == lit {
            Some(item.level)
        } else {
            None
        }
    }

    /// Whether a literal is that of its variable's item.
    pub fn value(&self, lit: i32) -> Option<bool>
        requires { nat_abs lit < length self.now }
        ensures { result ≡ value_in lit (slice_index_or self.now (nat_abs lit) None) }
    {
        let told = self.lits[lit.unsigned_abs() as usize];
        if told == 0 { None } else { Some(told == lit) }
    }

    /// Puts an item in its variable's place.
    pub fn set(&mut self, item: Item)
        requires named { 0 < nat_abs item.lit }
        requires place { nat_abs item.lit < length self.old }
        ensures { self.new ≡ slice_set self.old (nat_abs item.lit) (Some item) }
    {
        let place = item.lit.unsigned_abs() as usize;
        self.items[place] = item;
        self.lits[place] = item.lit;
    }

    /// Empties the place of a variable.
    pub fn empty(&mut self, variable: u32)
        requires { variable < length self.old }
        ensures { self.new ≡ slice_set self.old variable None }
    {
        self.items[variable as usize] = NO_ITEM;
        self.lits[variable as usize] = 0;
    }
}
