//! A `Vec` that contracts see as a list.
ghost use Rattle.std.specs.Prelude.{◌≡◌};

use std::marker::Model;

/// Items in order. A contract sees the items alone, and neither capacity nor place in memory.
#[derive(Debug, Drop)]
pub struct List<T> {
    items: Vec<T>,
}

impl<T> Model for List<T> {
    ghost use Rattle.std.specs.Prelude.{List as Sequence};

    ghost Value = { Sequence T };

    ghost view = { λ list. list.items.items };
}

impl<T> List<T> {
    /// The vector's items, which are moved and not copied.
    pub fn from_vec(v: Vec<T>) -> List<T>
        ensures { result ≡ v.items }
    {
        List { items: v }
    }

    /// The vector that holds the items.
    pub fn into_vec(self) -> Vec<T>
        ensures { result.items ≡ self }
    {
        let List { items } = self;
        items
    }

    /// The items to look at, without moving them.
    pub fn as_slice(&self) -> &[T]
        ensures { result.now ≡ self.now }
    {
        self.items.as_slice()
    }
}

#[cfg(test)]
mod tests {
    use super::*;
    use std::test::Fail;

    #[test]
    fn a_list_keeps_the_items_of_its_vector(rt: HostRuntime) -> Result<(), Fail> {
        let list = List::from_vec(vec![in rt.alloc(); 3, 1, 2]?);
        assert_eq!(rt; list.as_slice(), [3, 1, 2].as_slice());
        assert_eq!(rt; list.into_vec().as_slice(), [3, 1, 2].as_slice());
        Ok(())
    }
}
