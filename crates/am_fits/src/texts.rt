//! Texts that are kept once, and are known by their numbers.
ghost use Rattle.std.specs.Prelude.{◌≡◌, IfOk, Some};
ghost use Rattle.am_graph.specs.Reaches.{number};
ghost use Rattle.am_fits.specs.Words.{text_at, Grows};

use am_graph::NumberedTexts;
use std::alloc::{AllocError, Global};

/// The number of the text, which is kept if it is new.
pub(crate) fn number(
    alloc: Global,
    texts: &mut NumberedTexts,
    text: &[u8],
) -> Result<usize, AllocError>
    ensures grows { Grows texts.old texts.new }
    ensures number { IfOk result (λ n. number texts.new text.now ≡ Some n) }
{
    let number = texts.number(alloc, text)?;
    Ok(number)
}

/// The text with the number, or the empty one.
pub(crate) fn text_at(texts: &NumberedTexts, number: usize) -> &[u8]
    ensures { result.now ≡ text_at texts.now number }
{
    match texts.text(number) {
        Some(text) => text,
        None => &[],
    }
}
