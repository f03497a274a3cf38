// A union over children that are hashed alike becomes an interleave.
ghost use Rattle.std.specs.Prelude.{◌≡◌, ◌&&◌, map, eqb};
ghost use Rattle.exchange.specs.FactRows.{fact_row};
ghost use Rattle.exchange.specs.Forms.{form_of};
ghost use Rattle.exchange.specs.Built.{row_in};
ghost use Rattle.exchange.specs.Layouts.{layouts_by, same_layouts, hashed_alike};

use exchange::child::row_in;
use exchange::fact::{ChildForm, FactRows, LAYOUT};
use exchange::kind;
use exchange::lists::Forms;
use exchange::settings::Settings;

fn layout_in(xs: FactRows, c: ChildForm) -> u64
    ensures { result ≡ (row_in (map fact_row xs.entry.rows.now) c.child (form_of c.form)).layout }
{
    let x = row_in(xs, c);
    x[LAYOUT]
}

// Whether every child has the layout. No `all`: its closure would know no bound of `i`.
fn all_layouts(layout: u64, xs: FactRows, forms: Forms) -> bool
    ensures { result ≡ same_layouts layout (layouts_by (map fact_row xs.entry.rows.now) 1 forms.entry.list.now) }
{
    for (i, form) in forms.list.iter().enumerate() {
        let c = ChildForm {
            // No From goes from usize to u64.
            child: i as u64 + 1,
            form: *form,
        };
        if layout_in(xs, c) != layout {
            return false;
        }
    }
    true
}

// Whether there are children, and they are hashed alike.
fn can_interleave(xs: FactRows, forms: Forms) -> bool
    ensures { result ≡ hashed_alike (layouts_by (map fact_row xs.entry.rows.now) 1 forms.entry.list.now) }
{
    let Some(first) = forms.list.first() else {
        return false;
    };
    let c = ChildForm {
        child: 1,
        form: *first,
    };
    let layout = layout_in(xs, c);
    layout != 0 && all_layouts(layout, xs, forms)
}

// A union becomes an interleave unless the settings keep it, as every number but 0 does.
pub(crate) fn becomes_interleave(s: Settings, kind: u64, xs: FactRows, forms: Forms) -> bool
    ensures { result ≡ (eqb kind 9 && (eqb s.union 0 && hashed_alike (layouts_by (map fact_row xs.entry.rows.now) 1 forms.entry.list.now))) }
{
    kind == kind::UNION && s.union == 0 && can_interleave(xs, forms)
}
