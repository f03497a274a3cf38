// The relationship rounds: while children are unsatisfied together, those that can be are given a keyed exchange.
ghost use Rattle.std.specs.Prelude.{◌≡◌, List, map, ℕ, ◌+◌, ◌≤◌, ◌<◌, ◌%◌, length, get_or};
ghost use Rattle.exchange.specs.Forms.{form_number, form_of, with_relationship};
ghost use Rattle.exchange.specs.Facts.{row_of, unsatisfied_at};
ghost use Rattle.exchange.specs.States.{ChildState};
ghost use Rattle.exchange.specs.Relationships.{enforce_distribution_relationships};
ghost use Rattle.exchange.specs.FactRows.{fact_row};
ghost use Rattle.exchange.specs.Standings.{asked_needs, resulting, each_form};
ghost use Rattle.exchange.specs.Turns.{row_already, turn_givable, turn_form, any_turn, turns_by, set_of, Stand, answer, told};

use crate::step::pass;
use exchange::fact::{ATHASH, ChildForm, EXACT, Fact, FactRows};
use exchange::form::{form_of, relationship_of, split_of, top_of};
use exchange::lists::{Asks, Forms};
use exchange::mark::is_set;
use exchange::need;
use exchange::relationship::{Turn, Unenforced};

// The mask of unsatisfied children for a set of children that were given an exchange.
fn unsatisfied_at(masks: &[u64], set: u64) -> u64
    ensures { result ≡ unsatisfied_at masks.now set }
{
    // No From goes from u64 to usize.
    masks.get(set as usize).copied().unwrap_or(0)
}

// A relationship exchange on a form.
fn with_relationship(c: ChildForm) -> ChildForm
    ensures child { result.child ≡ c.child }
    ensures form { result.form ≡ form_number (with_relationship (form_of c.form)) }
{
    ChildForm {
        child: c.child,
        form: form_of(split_of(c.form), top_of(c.form), 1),
    }
}

// Hashed into target partitions by exactly its keys.
fn already_target_hash(xs: FactRows, c: ChildForm) -> bool
    ensures { result ≡ row_already (row_of (map fact_row xs.entry.rows.now) c.child (form_of c.form)) }
{
    let Fact::Row { place } = xs.fact_row(c) else {
        return true;
    };
    let x = xs.rows[place];
    is_set(x[ATHASH]) && is_set(x[EXACT])
}

// The turn of the child at place i, whose bit is the lowest of the mask.
fn turn(i: usize, need: u64, form: u64, mask: u64) -> Turn
    requires { i < 8 }
    ensures { result ≡ record { number = i + 1; need = need; form = form; bit = mask % 2 } }
{
    Turn {
        // No From goes from usize to u64.
        number: i as u64 + 1,
        need,
        form,
        bit: mask % 2,
    }
}

// A child that is asked is given one, unless it has it, its need is not keyed, or nothing would change.
fn is_givable(x: Turn, xs: FactRows) -> bool
    requires numbered { (1 ≤ x.number) × (x.number ≤ 8) × (x.form ≤ 15) }
    ensures { result ≡ turn_givable (map fact_row xs.entry.rows.now) x }
{
    let at = ChildForm {
        child: x.number,
        form: x.form,
    };
    is_set(x.bit)
        && !is_set(relationship_of(x.form))
        && x.need == need::KEYED
        && !already_target_hash(xs, at)
}

// The child's form after its turn.
fn give(x: Turn, xs: FactRows) -> Option<u64>
    requires numbered { (1 ≤ x.number) × (x.number ≤ 8) × (x.form ≤ 15) }
    ensures { result ≡ turn_form (map fact_row xs.entry.rows.now) x }
{
    if !is_givable(x, xs) {
        return Some(x.form);
    }
    let at = ChildForm {
        child: x.number,
        form: x.form,
    };
    pass(xs, with_relationship(at))
}

// Whether any of the mask's children can be given one.
fn any_givable(mask: u64, asks: Asks, forms: Forms, xs: FactRows) -> bool
    requires { length forms.list.now ≡ length asks.list.now }
    ensures { result ≡ any_turn (map fact_row xs.entry.rows.now) (turns_by 1 mask (asked_needs asks.entry.list.now) forms.entry.list.now) }
{
    let mut m = mask;
    for (i, a) in asks.list.iter().enumerate() {
        if is_givable(turn(i, a.need, forms.list[i], m), xs) {
            return true;
        }
        m /= 2;
    }
    false
}

// Each child of the mask that can be is given one.
// That there are as many forms as asks stays a clause, as `Asks` says.
fn round(mask: u64, asks: Asks, forms: &mut [u64], xs: FactRows) -> Option<()>
    requires forms_len { length forms.old ≡ length asks.list.now }
    requires small { (k : ℕ) → k < length forms.old → get_or forms.old k 0 ≤ 15 }
    ensures small { (k : ℕ) → k < length forms.new → get_or forms.new k 0 ≤ 15 }
    ensures forms_after { resulting result forms.new ≡ each_form (turn_form (map fact_row xs.entry.rows.now)) (turns_by 1 mask (asked_needs asks.entry.list.now) forms.old) }
{
    let mut m = mask;
    for (i, a) in asks.list.iter().enumerate() {
        forms[i] = give(turn(i, a.need, forms[i], m), xs)?;
        m /= 2;
    }
    Some(())
}

// The set of children that were given one, as its own mask. From the last to the first, so that each bit is proved to fit.
fn given_set(forms: Forms) -> u64
    ensures { result ≡ set_of forms.entry.list.now }
{
    let mut set: u64 = 0;
    for &form in forms.list.iter().rev() {
        set = relationship_of(form) + 2 * set;
    }
    set
}

// The rounds, until no child is unsatisfied; each gives a child its exchange, and none has two, so there are at most as many as children.
// That there are as many forms as asks stays a clause, as `Asks` says.
pub fn enforce_distribution_relationships(
    masks: &[u64],
    asks: Asks,
    forms: &mut [u64],
    xs: FactRows,
) -> Result<(), Unenforced>
    requires forms_len { length forms.old ≡ length asks.list.now }
    requires small { (k : ℕ) → k < length forms.old → get_or forms.old k 0 ≤ 15 }
    ensures { (cs : List ChildState) → Stand (map fact_row xs.entry.rows.now) 1 (asked_needs asks.entry.list.now) forms.old cs → answer result forms.new ≡ told (enforce_distribution_relationships (map fact_row xs.entry.rows.now) masks.now cs) }
{
    for _ in 0..asks.list.len() {
        let mask = unsatisfied_at(masks, given_set(Forms { list: &*forms }));
        if mask == 0 {
            return Ok(());
        }
        if !any_givable(mask, asks, Forms { list: &*forms }, xs) {
            return Err(Unenforced::Stuck);
        }
        round(mask, asks, &mut *forms, xs).ok_or(Unenforced::Missing)?;
    }
    if unsatisfied_at(masks, given_set(Forms { list: &*forms })) != 0 {
        return Err(Unenforced::Stuck);
    }
    Ok(())
}
