//! Whether nulls may stand among the items of a column.
ghost use Rattle.std.specs.Prelude.{◌≡◌, ◌↔◌, IsSome, IsTrue};
ghost use Rattle.am_values.specs.declared.nulls.Nulls.TheVariants.{AreRefused};

/// Whether nulls may stand among the items of a column.
#[derive(Clone, Copy, Debug, PartialEq, Eq)]
pub enum Nulls {
    /// Any item may be null.
    MayBe,
    /// A column with a null is refused.
    AreRefused,
}

impl Nulls {
    /// Whether this item may stand: it isn't null, or nulls may be.
    pub fn allow(self, item: Option<u64>) -> bool
        ensures { IsTrue result ↔ (self ≡ AreRefused → IsSome item) }
    {
        match self {
            Nulls::MayBe => true,
            Nulls::AreRefused => item.is_some(),
        }
    }
}
