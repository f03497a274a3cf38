// The J line of an answer: the names of a reordered aggregate's fields, each with its place.
ghost use Rattle.std.specs.Prelude.{◌≡◌, ◌++◌, ◌+◌, ◌≤◌, length, take};
ghost use Rattle.keys.specs.Adjust.{placed_names, names_from};
ghost use Rattle.keys.specs.Answers.{places_by, projected_by};
ghost use Rattle.sheet.specs.KeyAnswers.{projected_numbers};

use keys::answer::Outcome;

// The group names at their places.
fn placed_names(o: &[u64], places: &[u8], out: &mut [u64; 128]) -> usize
    requires { length o.now ≤ 32 }
    ensures { (result ≤ 64) × (take result out.new ≡ projected_numbers (placed_names o.now places.now)) }
{
    for (i, (&name, &place)) in o.iter().zip(places).enumerate() {
        out[2 * i] = name;
        out[2 * i + 1] = u64::from(place);
    }
    2 * o.len().min(places.len())
}

// The names at the places from the first on, from a place of the output on.
fn names_from(first: usize, a: &[u64], out: &mut [u64; 128], at: usize) -> usize
    requires { (first ≤ 32) × (length a.now ≤ 32) × (at ≤ 64) }
    ensures { (result ≤ 128) × (take result out.new ≡ take at out.old ++ projected_numbers (names_from first a.now)) }
{
    for (i, &name) in a.iter().enumerate() {
        out[at + 2 * i] = name;
        // No From goes from usize to u64.
        out[at + 2 * i + 1] = (first + i) as u64;
    }
    at + 2 * a.len()
}

// The group names at their places, and the aggregate names after them, in the front of the room lent, and how many numbers.
fn projected(places: &[u8], o: &[u64], a: &[u64], out: &mut [u64; 128]) -> usize
    requires { (length o.now ≤ 32) × (length a.now ≤ 32) }
    ensures few { result ≤ 128 }
    ensures names { take result out.new ≡ projected_numbers (placed_names o.now places.now ++ names_from (length o.now) a.now) }
{
    let at = placed_names(o, places, &mut *out);
    names_from(o.len(), a, out, at)
}

// The same of an outcome; only an aggregate that acts has a projection.
pub fn projected_by(outcome: &Outcome, o: &[u64], a: &[u64], out: &mut [u64; 128]) -> usize
    requires { (length o.now ≤ 32) × (length a.now ≤ 32) }
    ensures few { result ≤ 128 }
    ensures names { take result out.new ≡ projected_numbers (projected_by outcome.now (placed_names o.now (places_by outcome.now) ++ names_from (length o.now) a.now)) }
{
    let Outcome::Regrouped { places, .. } = outcome else {
        return 0;
    };
    projected(places.positions().list, o, a, out)
}
