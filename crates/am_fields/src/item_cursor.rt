//! What a column asks of the cursor over its items.
ghost use Rattle.std.specs.Prelude.{◌≡◌, ◌<◌, ◌≤◌, ◌++◌, ◌∷◌, [], ℕ, List, length, drop, replicate, IfSome, IfNone};

/// A cursor over the items of a column, each of which a contract sees as a `V`.
pub trait Spelled<V> {
    /// What an item is read as.
    type Item: Copy;

    /// The items that are left.
    ghost items: { Self → List V };

    /// The item that was read.
    ghost value: { Self.Item → V };

    /// The bytes join these items.
    ghost joins: { List ℕ → List V → Type 0 };

    /// What each row has where the column is left out.
    ghost blank: { V };

    /// What each row has where the column is left out.
    fn blank() -> Self::Item
        ensures { value result ≡ blank };

    /// The next item; nothing at the end.
    fn next(&mut self) -> Option<Self::Item>
        ensures end { IfNone result ((items self.old ≡ []) × (items self.new ≡ [])) }
        ensures next { IfSome result (λ item. items self.old ≡ value item ∷ items self.new) };

    /// Leaves out the next n items, or all where fewer are left.
    fn skip(&mut self, n: u64)
        ensures { items self.new ≡ drop n (items self.old) };

    /// How many items are left.
    fn left(&self) -> u64
        ensures { result ≡ length (items self.now) };

    /// The same cursor again.
    fn again(&self) -> Self
        ensures { items result ≡ items self.now };

    /// Bytes join one list at most.
    ghost one: { (bytes : List ℕ) (xs ys : List V) → joins bytes xs → joins bytes ys → xs ≡ ys };

    /// What no bytes join is the list of no items.
    ghost nothing: { joins [] [] };
}

/// A cursor that reads the items by runs of equal ones.
pub trait Runs<V>: Spelled<V> {
    /// The next item, and how many like it come at once, at most so many.
    fn next_alike_within(&mut self, most: u64) -> Option<(Self::Item, u64)>
        requires some { 0 < most }
        ensures end { IfNone result ((Self.items self.old ≡ []) × (Self.items self.new ≡ [])) }
        ensures next { IfSome result (λ r. (1 ≤ r.1) × (r.1 ≤ most) × (Self.items self.old ≡ replicate r.1 (Self.value r.0) ++ Self.items self.new)) };
}

/// A cursor that reads any items, whatever their values.
pub trait Opened<'a, V>: Runs<V> {
    /// The cursor before the first of the items that the bytes join, at most so many; nothing where they join no such list.
    fn opened(bytes: &'a [u8], most: u64) -> Option<Self>
        ensures read { IfSome result (λ c. Self.joins bytes.now (Self.items c)) }
        ensures none { IfNone result ((xs : List V) → Self.joins bytes.now xs → most < length xs) };

    /// The cursor before the first of so many items, which the bytes are known to join.
    fn known(bytes: &'a [u8], count: u64) -> Self
        requires { (xs : List V) × Self.joins bytes.now xs × (length xs ≡ count) }
        ensures spelled { Self.joins bytes.now (Self.items result) }
        ensures count { length (Self.items result) ≡ count };
}
