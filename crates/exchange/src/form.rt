// A form: what was put on top of a child. It is split + 2 × top + 8 × relationship.
ghost use Rattle.std.specs.Prelude.{◌≡◌, ◌≤◌};
ghost use Rattle.exchange.specs.Forms.{form_number, form_of};

// The child as it stands on the sheet.
pub const PLAIN: u64 = 0;

// Split at its source.
pub const SPLIT: u64 = 1;

// What stands topmost: a number, since it is two bits of the form.
pub const TOP_NONE: u64 = 0;

pub const TOP_MERGE: u64 = 1;

pub const TOP_KEYED: u64 = 2;

pub const TOP_ROUND_ROBIN: u64 = 3;

// The number of a form; below, its parts.
pub fn form_of(split: u64, top: u64, relationship: u64) -> u64
    requires { (split ≤ 1) × (top ≤ 3) × (relationship ≤ 1) }
    ensures { result ≡ form_number (record { split = split; top = top; relationship = relationship }) }
{
    split + 2 * top + 8 * relationship
}

pub fn split_of(form: u64) -> u64
    ensures { result ≡ (form_of form).split }
{
    form % 2
}

pub fn top_of(form: u64) -> u64
    ensures { result ≡ (form_of form).top }
{
    form / 2 % 4
}

pub fn relationship_of(form: u64) -> u64
    ensures { result ≡ (form_of form).relationship }
{
    form / 8
}
