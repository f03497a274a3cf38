// Where a number stands on a line.
ghost use Rattle.linekinds.specs.PlainText.{StandsAt};
ghost use Rattle.numberlines.specs.NumberLines.{Closed};

// A comma in a text that ends with an LF, so that a byte follows it.
#[derive(Clone, Copy)]
pub(crate) struct Comma<'a> {
    pub s: &'a [u8],
    pub at: usize,
    pub ghost closed: { Closed s.now },
    pub ghost here: { StandsAt s.now at 44 },
}
