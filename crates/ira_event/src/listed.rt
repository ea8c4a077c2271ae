ghost use Rattle.std.specs.Prelude.{◌≡◌, List, Option};
ghost use Rattle.std.specs.Iterator.{YieldsFirst, item_count};

/// An iterator over a finite list that contracts can name: `next` gives the list's first item and
/// leaves the others.
pub trait Listed: Iterator {
    // the items left
    ghost left: { Self → List Self.Item };

    // `next` may be called in every state
    ghost may_go_on: { (s : Self) → Self.can_next s };

    // `next` gives the first item left and leaves the others
    ghost gives_first: { (s : Self) (r : Option Self.Item) (t : Self) → Self.next_gives s r t
        → YieldsFirst left s r t };

    // exactly so many items are known to come
    ghost ends: { (s : Self) → Self.remaining s ≡ item_count left s };
}
