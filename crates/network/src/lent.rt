// A network as it is lent.

ghost use Rattle.std.specs.Prelude.{ℕ, ◌≤◌, get_or};
ghost use Rattle.edition.specs.Limits.{longest};

use edition::Search;

// The rows of its links and of its nodes' parent links, and the search to make in it. Each row is lent for as long as it is: a
// change writes the links and leaves the parents.
#[derive(Clone, Copy)]
pub struct Network<'l, 'p> {
    pub links: &'l [u16],
    pub parents: &'p [u16],
    pub search: Search,
    // No number of a link's record is larger than 16 bits hold, as of any row of such numbers.
    pub ghost short: { (i : ℕ) → get_or links.now i 0 ≤ longest },
}
