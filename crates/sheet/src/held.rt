// The lines of a sheet that is held as lists and their counts.
ghost use Rattle.std.specs.Prelude.{◌≡◌, ◌≤◌, ◌<◌, length, get_or};
ghost use Rattle.sheet.specs.Held.{held_at};

// Each list is a room of 64 numbers, and its count says how many of them are the line's.
#[derive(Clone, Copy)]
pub struct Lists<'a, 'c> {
    pub lists: &'a [[u64; 64]],
    pub counts: &'c [usize],
}

impl<'a, 'c> Lists<'a, 'c> {
    // The numbers of line i.
    pub fn list(self, i: usize) -> &'a [u64]
        requires { (i < length self.lists.now) × (i < length self.counts.now) × (get_or self.counts.now i 0 ≤ 64) }
        ensures { result.now ≡ held_at self.entry.lists.now self.entry.counts.now i }
    {
        &self.lists[i][..self.counts[i]]
    }
}
