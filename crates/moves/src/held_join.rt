// An I sheet that is held, within its bounds.
ghost use Rattle.std.specs.Prelude.{◌≡◌, ◌<◌, ◌≤◌, length};
ghost use Rattle.sheet.specs.Held.{held_at, JoinHeld};
ghost use Rattle.moves.specs.Bounds.{join_held_prop};

use sheet::held::Lists;

#[derive(Clone, Copy)]
pub struct HeldJoin<'a> {
    pub held: Lists<'a, 'a>,
    pub ghost bounds: { JoinHeld held.lists.now held.counts.now } by { join_held_prop held.lists.now held.counts.now },
}

impl<'a> HeldJoin<'a> {
    // The numbers of line i.
    pub fn list(self, i: usize) -> &'a [u64]
        requires { i < 8 }
        ensures line { result.now ≡ held_at self.entry.held.lists.now self.entry.held.counts.now i }
        ensures few { length result.now ≤ 64 }
    {
        self.held.list(i)
    }
}
