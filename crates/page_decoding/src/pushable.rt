//! Lists to which items are appended.
ghost use Rattle.std.specs.Prelude.{◌≡◌, ◌∷◌, [], Bool, List, length, replicate, IfErr};
ghost use Rattle.columns_core.specs.Causes.{IsWantOfMemory};
ghost use Rattle.page_decoding.specs.Pushing.{Grows, GrowsByBlank};

use columns_core::{Error, MutableBitmap, NativeType};

/// A list to which items are appended. Numbers, truth values and items of one size always fit; items of any size fit while
/// their bytes are no more than their offset type counts.
pub trait Pushable<T> {
    /// What an item is.
    ghost Item: { Type 0 };

    /// What no call changes: the size of the items, where they have one size.
    ghost Shape: { Type 0 };

    /// The items that are held.
    ghost held: { Self → List Item };

    ghost shape: { Self → Shape };

    /// The item that is appended for a value.
    ghost item: { T → Item };

    /// The values that are taken.
    ghost takes: { Shape → T → Type 0 };

    /// The item that stands where there is no value: the number 0, false, bytes that are 0, or the empty item.
    ghost is_blank: { Shape → Item → Type 0 };

    /// Whether the bytes of these items fit.
    ghost fit: { List Item → Bool };

    /// Takes memory for so many items more.
    fn reserve(&mut self, additional: usize) -> Result<(), Error>
        ensures items { held self.new ≡ held self.old }
        ensures shape { shape self.new ≡ shape self.old }
        ensures memory { IfErr result IsWantOfMemory };

    fn push(&mut self, value: T) -> Result<(), Error>
        requires takes { takes (shape self.old) value }
        ensures items { Grows fit (item value ∷ []) (held self.old) (held self.new) result }
        ensures shape { shape self.new ≡ shape self.old };

    fn push_null(&mut self) -> Result<(), Error>
        ensures items { GrowsByBlank (is_blank (shape self.old)) (held self.old) (held self.new) result }
        ensures shape { shape self.new ≡ shape self.old };

    /// Appends the value so many times.
    fn extend_constant(&mut self, additional: usize, value: T) -> Result<(), Error>
        requires takes { takes (shape self.old) value }
        ensures items { Grows fit (replicate additional (item value)) (held self.old) (held self.new) result }
        ensures shape { shape self.new ≡ shape self.old };

    fn len(&self) -> usize
        ensures { result ≡ length (held self.now) };
}

impl<T: NativeType + Default> Pushable<T> for Vec<T> {
    ghost use Rattle.std.specs.Prelude.{true};

    ghost Item = { T };

    ghost Shape = { Unit {0} };

    ghost held = { λ list. list.items };

    ghost shape = { λ _. tt };

    ghost item = { λ value. value };

    ghost takes = { λ _ _. Unit {0} };

    ghost is_blank = { λ _ number. T.is_default number };

    ghost fit = { λ _. true };

    fn reserve(&mut self, additional: usize) -> Result<(), Error> {
        Vec::reserve(self, additional)?;
        Ok(())
    }

    fn push(&mut self, value: T) -> Result<(), Error> {
        Vec::push(self, value)?;
        Ok(())
    }

    fn push_null(&mut self) -> Result<(), Error> {
        Vec::push(self, T::default())?;
        Ok(())
    }

    fn extend_constant(&mut self, additional: usize, value: T) -> Result<(), Error> {
        let Some(count) = Vec::len(self).checked_add(additional) else {
            return Err(Error::OutOfMemory);
        };
        self.resize(count, value)?;
        Ok(())
    }

    fn len(&self) -> usize {
        Vec::len(self)
    }
}

impl Pushable<bool> for MutableBitmap {
    ghost use Rattle.std.specs.Prelude.{◌≡◌, true, false};

    ghost Item = { Bool };

    ghost Shape = { Unit {0} };

    ghost held = { λ bits. bits };

    ghost shape = { λ _. tt };

    ghost item = { λ value. value };

    ghost takes = { λ _ _. Unit {0} };

    ghost is_blank = { λ _ value. value ≡ false };

    ghost fit = { λ _. true };

    fn reserve(&mut self, additional: usize) -> Result<(), Error> {
        MutableBitmap::reserve(self, additional)
    }

    fn push(&mut self, value: bool) -> Result<(), Error> {
        MutableBitmap::push(self, value)
    }

    fn push_null(&mut self) -> Result<(), Error> {
        MutableBitmap::push(self, false)
    }

    fn extend_constant(&mut self, additional: usize, value: bool) -> Result<(), Error> {
        MutableBitmap::extend_constant(self, additional, value)
    }

    fn len(&self) -> usize {
        MutableBitmap::len(self)
    }
}
