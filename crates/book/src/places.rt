// The place of the listing, and a guard that puts it back.
ghost use Rattle.std.specs.Prelude.{◌≡◌};

// The row that is told next.
#[derive(Clone, Copy)]
pub(crate) struct Cursor {
    pub(crate) next: u16,
}

// Lends the place for a walk of its own; however the walk ends, the place is put back.
pub(crate) struct CursorGuard<'a> {
    pub(crate) cursor: &'a mut Cursor,
    pub(crate) saved: Cursor,
}

impl Drop for CursorGuard<'_> {
    fn drop(self)
        ensures { self.exit.0.now ≡ self.entry.saved }
    {
        let CursorGuard { cursor, saved } = self;
        *cursor = saved;
    }
}
