//! The commands of a script.
use am_types::{Hash, List, Text};

/// What a line of a script asks for.
#[derive(Debug, Drop)]
pub enum Command {
    /// Lists the chunks of the file of this name.
    Frames(Text),
    /// Delivers the changes of the file of this name, which has change chunks alone.
    Apply(Text),
    /// Delivers the changes of the file of this name, documents allowed.
    Load(Text),
    /// Keeps the canonical document of the closed set in the file of this name.
    Save(Text),
    /// Keeps that document and the waiting changes behind it in the file of this name.
    SaveAll(Text),
    /// Tells the heads of the closed set.
    Heads,
    /// Tells the waiting changes.
    Waiting,
    /// Tells the changes of the closed set in canonical order.
    History,
    /// Prints the winners at these heads, or at those of the closed set where none is named.
    Show(List<Hash>),
    /// Prints all visible entries at these heads, or at those of the closed set where none is named.
    Conflicts(List<Hash>),
    /// Prints what `Show` prints, made by a replay of the changes each time.
    Audit(List<Hash>),
    /// Keeps the chunk of the change of the closed set with this hash in the file of this name.
    Export(Hash, Text),
    /// Tells how much the store holds, and how often a view was found.
    Stats,
    /// Measures a document of this many generated changes, at most 100,000.
    Bench(u64),
}
