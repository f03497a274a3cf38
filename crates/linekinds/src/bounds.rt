// What fields, lists and sheets may have at most.

// The largest number of a plain field.
pub const PLAIN: u64 = 65535;

// The largest row count.
pub const LONG: u64 = 4294967295;

// A mark that is set; one that is not is 0.
pub const MARK: u64 = 1;

// The last code of a direction.
pub(crate) const LAST_DIRECTION: u64 = 3;

// The most children of an operator.
pub const MOST_CHILDREN: u64 = 8;

// The most entries of a list.
pub(crate) const MOST_ENTRIES: usize = 32;

// The most bytes of a sheet.
pub const MOST_BYTES: usize = 65536;
