// Storing in rooms that may be too short.
ghost use Rattle.std.specs.Prelude.{◌≡◌, set};

// Stores where there is room.
pub fn store<T: Copy>(out: &mut [T], i: usize, value: T)
    ensures { out.new ≡ set out.old i value }
{
    if i < out.len() {
        out[i] = value;
    }
}
