// A list that contracts see as the list of its items.
ghost use Rattle.std.specs.Prelude.{◌≡◌, [], ◌∷◌, ◌++◌, ◌<◌, length, slice_get, OnOk, OnErr, OnSome};
ghost use Rattle.std.specs.Option.{option_copied};

use crate::memory::NoMem;
use crate::value::PlainValue;
use std::alloc::Global;
use std::marker::Model;

/// A list. `new` takes no memory, the first `push` makes the room.
#[derive(Debug, Drop)]
pub struct Listed<T> {
    items: Option<Vec<T>>,
}

impl<T> Model for Listed<T> {
    ghost use Rattle.std.specs.Prelude.{List};
    ghost use Rattle.std.specs.Coded.{coded_list};
    ghost use Rattle.plain_values.specs.Lists.{items_of};

    ghost Value = { List T };

    ghost coded = { coded_list T.code };

    ghost view = { λ it. items_of it.items };
}

impl<T> Listed<T> {
    /// An empty list.
    pub fn new() -> Listed<T>
        ensures { result ≡ [] }
    {
        Listed { items: None }
    }

    /// All items, in order.
    pub fn as_slice(&self) -> &[T]
        ensures { result.now ≡ self.now }
    {
        match &self.items {
            None => &[],
            Some(items) => items.as_slice(),
        }
    }

    /// How many items there are.
    pub fn len(&self) -> usize
        ensures { result ≡ length self.now }
    {
        self.as_slice().len()
    }

    /// The item at an index, counted from 0.
    pub fn get(&self, i: usize) -> Option<&T>
        ensures value { option_copied result ≡ slice_get self.now i }
        ensures within { OnSome result (i < length self.now) }
    {
        self.as_slice().get(i)
    }
}

impl<T: Drop> Listed<T> {
    /// Adds an item at the end. After `NoMem` the list is as before, and the item is dropped.
    pub fn push(&mut self, alloc: Global, item: T) -> Result<(), NoMem>
        ensures ok { OnOk result (self.new ≡ self.old ++ item ∷ []) }
        ensures err { OnErr result (self.new ≡ self.old) }
    {
        match &mut self.items {
            Some(items) => match items.push(item) {
                Ok(()) => Ok(()),
                Err(_) => Err(NoMem),
            },
            None => {
                let mut items = Vec::new(alloc);
                match items.push(item) {
                    Ok(()) => {
                        self.items = Some(items);
                        Ok(())
                    }
                    Err(_) => Err(NoMem),
                }
            }
        }
    }
}

impl<T: PlainValue> PlainValue for Listed<T> {
    fn copy(&self, alloc: Global) -> Result<Listed<T>, NoMem> {
        let mut all = Listed::new();
        for item in self.as_slice() {
            all.push(alloc, item.copy(alloc)?)?;
        }
        Ok(all)
    }

    fn same(&self, other: &Listed<T>) -> bool {
        let mine = self.as_slice();
        let others = other.as_slice();
        if mine.len() != others.len() {
            return false;
        }
        for i in 0..mine.len() {
            if !mine[i].same(&others[i]) {
                return false;
            }
        }
        true
    }
}
