// A K sheet that is held, within its bounds.
ghost use Rattle.std.specs.Prelude.{◌≡◌, ◌<◌, ◌≤◌, length};
ghost use Rattle.sheet.specs.Held.{held_at, KeyHeld};
ghost use Rattle.moves.specs.Bounds.{key_held_prop};

use sheet::held::Lists;

#[derive(Clone, Copy)]
pub struct HeldKey<'a> {
    pub held: Lists<'a, 'a>,
    pub ghost bounds: { KeyHeld held.lists.now held.counts.now } by { key_held_prop held.lists.now held.counts.now },
}

impl<'a> HeldKey<'a> {
    // The numbers of line i, of those before the children's.
    pub fn list(self, i: usize) -> &'a [u64]
        requires { i < 9 }
        ensures line { result.now ≡ held_at self.entry.held.lists.now self.entry.held.counts.now i }
        ensures few { length result.now ≤ 64 }
    {
        self.held.list(i)
    }
}
