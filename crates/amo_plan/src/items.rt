//! A vector that contracts see as a list.
ghost use Rattle.std.specs.Prelude.{◌≡◌};

use std::marker::Model;

/// `Items`: a vector that contracts see as the list of its items.
///
/// # Examples
///
/// ```
/// use amo_plan::Items;
///
/// let numbers = vec![in rt.alloc(); 2u64, 40]?;
/// let items = Items::new(numbers);
/// assert_eq!(rt; items.as_slice(), [2, 40].as_slice());
/// assert_eq!(rt; items.into_vec().len(), 2);
/// ```
#[derive(Debug, Drop)]
pub struct Items<T> {
    items: Vec<T>,
}

impl<T> Model for Items<T> {
    ghost use Rattle.std.specs.Prelude.{List};

    ghost Value = { List T };

    ghost view = { λ i. i.items.items };
}

impl<T> Items<T> {
    /// Returns the items of this vector. It takes no memory.
    pub fn new(items: Vec<T>) -> Items<T>
        ensures { result ≡ items.items }
    {
        Items { items }
    }

    /// Returns the items as a slice.
    pub fn as_slice(&self) -> &[T]
        ensures { result.now ≡ self.now }
    {
        self.items.as_slice()
    }

    /// Returns the vector. It takes no memory.
    pub fn into_vec(self) -> Vec<T>
        ensures { result.items ≡ self }
    {
        let Items { items } = self;
        items
    }
}
