//! Laws over the definitions. Each function does nothing; its contract is the law.
ghost use Rattle.am_view.specs.Laws.{ReadsByRows, WalksRows};

/// At the clock of some heads the rows of a valid set show the entries that the operations of the heads' ancestors leave,
/// in document order and with their totals.
pub fn reads_by_rows()
    ensures { ReadsByRows }
{}

/// One walk along the rows of a valid set, each told by those behind it in its slot, finds what the rows show.
pub fn walks_rows()
    ensures { WalksRows }
{}
