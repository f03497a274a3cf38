// The order handling of a child, by what is known of it.
ghost use Rattle.std.specs.Prelude.{◌≡◌, ◌||◌, ◌≤◌};
ghost use Rattle.exchange.specs.Settings.{is_set as is_set_mark};
ghost use Rattle.exchange.specs.Order.{enables_streaming, kept_entries, required_replaced, free_replaced};
ghost use Rattle.exchange.specs.Handling.{sorted_entries, streams as streams_by, required_handling, free_handling, handling_of};

use crate::mark::is_set;
use crate::{kind, need};

// Whether order-preserving operators give way, the entries of the sort above as a mask, and whether the child's mark is cleared.
// A mask of no entries is no sort, so it is no Option.
#[derive(Clone, Copy)]
pub struct Handling {
    pub replaced: bool,
    pub entries: u64,
    pub cleared: bool,
}

// The entries of a required order that are not constant: bit n for entry n+1.
fn kept_entries(n: u64, constants: u64) -> u64
    requires { n ≤ 8 }
    ensures { result ≡ kept_entries n constants }
{
    let mut kept = 0;
    for i in (0..n).rev() {
        kept = 2 * kept + u64::from((constants >> i) % 2 != 1);
    }
    kept
}

// A worked node with one child that keeps its order would no longer stream over an unordered child.
fn preserving_order_enables_streaming(children: u64, maintains: u64, ford: u64, fplain: u64) -> bool
    ensures { result ≡ enables_streaming children maintains ford fplain }
{
    children == 1 && is_set(maintains) && !is_set(ford) && is_set(fplain)
}

// A required order that isn't held, or isn't worth its cost.
fn required_replaced(met: bool, desirable: bool, streaming: bool, tracked: bool) -> bool
    ensures { result ≡ required_replaced met desirable streaming tracked }
{
    (!met || !desirable) && !streaming && tracked
}

// The entries of the sort that restores a held order where it was given up; none where the order still holds.
fn add_sort_above_with_check(
    replaced: bool,
    met: bool,
    aftermet: bool,
    entries: u64,
    constants: u64,
) -> u64
    requires { entries ≤ 8 }
    ensures { result ≡ sorted_entries replaced met aftermet entries constants }
{
    if replaced && met && !aftermet {
        return kept_entries(entries, constants);
    }
    0
}

// No order is required: by the need, single or keyed, or unspecified.
fn free_replaced(need: u64, maintains: bool, streaming: bool, output: bool) -> bool
    ensures { result ≡ free_replaced need maintains streaming output }
{
    if need == need::SINGLE || need == need::KEYED {
        return !maintains && !streaming;
    }
    !maintains || output
}

// What is known of a child, and of the worked node over it: numbers, as marks (mark.rt) and kinds (kind.rt) are.
// That the entries are at most 8 stays a clause, since the definitions make a `Known` of any child.
#[derive(Clone, Copy)]
pub struct Known {
    pub sort: u64,
    pub friendly: u64,
    pub kind: u64,
    pub children: u64,
    pub need: u64,
    pub tracked: u64,
    pub maintains: u64,
    pub entries: u64,
    pub met: u64,
    pub aftermet: u64,
    pub constants: u64,
    pub ford: u64,
    pub fplain: u64,
}

// A tracked child that its order lets the worked node stream over.
fn streams(k: Known) -> bool
    ensures { result ≡ streams_by k }
{
    is_set(k.tracked)
        && preserving_order_enables_streaming(k.children, k.maintains, k.ford, k.fplain)
}

// Either of the two marks is set.
fn desirable(friendly: u64, sort: u64) -> bool
    ensures { result ≡ (is_set_mark friendly || is_set_mark sort) }
{
    is_set(friendly) || is_set(sort)
}

// Where a required order is given up, a sort restores it if it was held.
fn order_required(k: Known) -> Handling
    requires { k.entries ≤ 8 }
    ensures { result ≡ required_handling k }
{
    let met = is_set(k.met);
    let replaced = required_replaced(
        met,
        desirable(k.friendly, k.sort),
        streams(k),
        is_set(k.tracked),
    );
    let entries = add_sort_above_with_check(
        replaced,
        met,
        is_set(k.aftermet),
        k.entries,
        k.constants,
    );
    Handling {
        replaced,
        entries,
        cleared: true,
    }
}

// Where no order is required, there is no sort, and the mark stays.
fn order_not_required(k: Known) -> Handling
    ensures { result ≡ free_handling k }
{
    let replaced = free_replaced(
        k.need,
        is_set(k.maintains),
        streams(k),
        k.kind == kind::OUTPUT_REQUIREMENT,
    );
    Handling {
        replaced,
        entries: 0,
        cleared: false,
    }
}

// The order handling of a child: whether an order is required of it decides.
#[tactic(auto, unfolding(crate::specs::Handling::handling_of))]
pub(crate) fn handle_order(k: Known) -> Handling
    requires { k.entries ≤ 8 }
    ensures { result ≡ handling_of k }
{
    if k.entries == 0 {
        return order_not_required(k);
    }
    order_required(k)
}
