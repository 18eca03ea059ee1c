//! Which numbers of a set come first.

ghost use Rattle.std.specs.Prelude.{◌≡◌, ◌<◌, true, length};
ghost use Rattle.kin_rank.specs.Leading.{sole, later, earlier, joined, IsKnown};

/// Of some numbers, the one of greatest place in G and the one of least place in T. These numbers, and not their
/// places: so nothing changes here where numbers beside them come or go.
#[derive(Clone, Copy)]
pub struct Leaders {
    pub last_in_g: u32,
    pub first_in_t: u32,
}

impl Leaders {
    /// The leaders of one number.
    pub fn of(no: u32) -> Leaders
        ensures { result ≡ sole no }
    {
        Leaders {
            last_in_g: no,
            first_in_t: no,
        }
    }
}

/// Which of two numbers has the greater place.
fn later(places: &[u32], a: u32, b: u32) -> u32
    requires a { a < length places.now }
    requires b { b < length places.now }
    ensures { result ≡ later places.now a b }
{
    if places[a as usize] < places[b as usize] {
        b
    } else {
        a
    }
}

/// Which of two numbers has the lesser place.
fn earlier(places: &[u32], a: u32, b: u32) -> u32
    requires a { a < length places.now }
    requires b { b < length places.now }
    ensures { result ≡ earlier places.now a b }
{
    if places[b as usize] < places[a as usize] {
        b
    } else {
        a
    }
}

/// The leaders of two sets together, by the places in G and T. An empty set has none.
pub fn joined(g: &[u32], t: &[u32], a: Option<Leaders>, b: Option<Leaders>) -> Option<Leaders>
    requires same { length t.now ≡ length g.now }
    requires a { IsKnown (length g.now) a }
    requires b { IsKnown (length g.now) b }
    ensures { result ≡ joined g.now t.now a b }
{
    let Some(left) = a else {
        return b;
    };
    let Some(right) = b else {
        return a;
    };
    Some(Leaders {
        last_in_g: later(g, left.last_in_g, right.last_in_g),
        first_in_t: earlier(t, left.first_in_t, right.first_in_t),
    })
}

/// Whether these are the same.
pub fn are_same(a: Option<Leaders>, b: Option<Leaders>) -> bool
    ensures { result ≡ true → a ≡ b }
{
    let Some(left) = a else {
        return b.is_none();
    };
    let Some(right) = b else {
        return false;
    };
    left.last_in_g == right.last_in_g && left.first_in_t == right.first_in_t
}
