ghost use Rattle.std.specs.Prelude.{◌≡◌};

/// A pool over a folder that it borrows.
pub struct PoolOver<'a, F, V> {
    pub(crate) folder: &'a mut F,
    pub(crate) slots: V,
}

impl<F, V: Drop> Drop for PoolOver<'_, F, V> {
    fn drop(self)
        ensures { self.exit.0.now ≡ self.entry.folder.now }
    {
        let PoolOver {
            folder: _folder,
            slots: _slots,
        } = self;
    }
}
