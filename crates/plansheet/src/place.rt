// A place in a sheet.
ghost use Rattle.std.specs.Prelude.{◌+◌, ◌≤◌, length};

// A place in a sheet's bytes, and the number of the line there.
#[derive(Clone, Copy)]
pub struct Place<'a> {
    pub s: &'a [u8],
    pub at: usize,
    pub line: u64,
    pub ghost within: { at ≤ length s.now },
    pub ghost numbered: { line ≤ at + 1 },
}
