//! Texts that are kept once, each with its place of coming as its number.
ghost use Rattle.std.specs.Prelude.{List, Option, ℕ, ◌≡◌, [], IfOk, OnOk, OnErr, Some, IfSome, cond, length, slice_get, option_map};
ghost use Rattle.std.specs.BTreeMap.{IsUnchanged};
ghost use Rattle.am_types.specs.Same.{same_bytes};
ghost use Rattle.am_graph.specs.Numbers.{with_text, Tells};
ghost use Rattle.am_graph.specs.Reaches.{number};

use crate::hints::Hints;
use crate::text_key::{SHORT, key_of};
use am_types::{Twin, slice_known};
use std::alloc::{AllocError, Global};
use std::collections::BTreeMap;
use std::marker::Model;

/// Texts that are kept once, each with its place of coming as its number, from 0. A text is looked up in an ordered map, so
/// that nobody who picks the texts makes look-ups slow: a short one by a number of its bytes, a longer one by the bytes. One
/// that comes again mostly takes no such look-up, since a hint tells it. Contracts see the list of the texts.
#[derive(Drop)]
pub struct NumberedTexts {
    texts: Vec<Vec<u8>>,
    short: BTreeMap<(u128, usize), usize>,
    long: BTreeMap<Vec<u8>, usize>,
    hints: Hints,
}

impl Model for NumberedTexts {
    ghost use Rattle.std.specs.Prelude.{List, ℕ, map};
    ghost use Rattle.am_graph.specs.Numbers.{AreNumbers};

    ghost Value = { List (List ℕ) };

    ghost view = { λ n. map (λ v. v.items) n.texts.items };

    ghost invariant = { λ n. AreNumbers (map (λ v. v.items) n.texts.items) n.short n.long };
}

impl NumberedTexts {
    /// No texts.
    pub fn new(alloc: Global) -> Self
        ensures { result ≡ [] }
    {
        NumberedTexts {
            texts: Vec::new(alloc),
            short: BTreeMap::new(alloc),
            long: BTreeMap::new(alloc),
            hints: Hints::none(alloc),
        }
    }

    /// How many there are.
    pub fn len(&self) -> usize
        ensures { result ≡ length self.now }
    {
        self.texts.len()
    }

    // The number of the text, if a hint tells it.
    fn hinted(&self, text: &[u8]) -> Option<usize>
        ensures { IfSome result (λ n. number self.now text.now ≡ Some n) }
    {
        let hint = self.hints.of(text);
        let Some(kept) = self.texts.get(hint) else {
            return None;
        };
        if kept.as_slice() == text {
            return Some(hint);
        }
        None
    }

    /// The number of the text, if it is kept.
    pub fn number_of(&self, text: &[u8]) -> Option<usize>
        ensures { result ≡ number self.now text.now }
    {
        if let Some(number) = self.hinted(text) {
            return Some(number);
        }
        self.sought(text)
    }

    // The same by the maps.
    fn sought(&self, text: &[u8]) -> Option<usize>
        ensures { result ≡ number self.now text.now }
    {
        slice_known(text);
        if text.len() <= SHORT {
            return self.short.get(&key_of(text)).copied();
        }
        self.long.get(text).copied()
    }

    /// The text with this number.
    pub fn text(&self, number: usize) -> Option<&[u8]>
        ensures { option_map (λ t. t.now) result ≡ slice_get self.now number }
    {
        match self.texts.get(number) {
            Some(text) => Some(text.as_slice()),
            None => None,
        }
    }

    /// The number of the text, which is kept if it is new.
    pub fn number(&mut self, alloc: Global, text: &[u8]) -> Result<usize, AllocError>
        ensures ok { OnOk result (self.new ≡ with_text self.old text.now) }
        ensures number { IfOk result (λ n. number self.new text.now ≡ Some n) }
        ensures err { OnErr result (self.new ≡ self.old) }
    {
        if let Some(number) = self.hinted(text) {
            return Ok(number);
        }
        if let Some(number) = self.sought(text) {
            self.hints.remember(alloc, text, number);
            return Ok(number);
        }
        let kept = Vec::from_slice(alloc, text)?;
        self.texts.reserve(1)?;
        let number = self.texts.len();
        note(&mut self.short, &mut self.long, alloc, text, number)?;
        self.hints.remember(alloc, text, number);
        self.texts.push_reserved(kept);
        Ok(number)
    }
}

// Notes the number of a text, in the map for texts of its length.
fn note(
    short: &mut BTreeMap<(u128, usize), usize>,
    long: &mut BTreeMap<Vec<u8>, usize>,
    alloc: Global,
    text: &[u8],
    number: usize,
) -> Result<(), AllocError>
    ensures ok { OnOk result ((f : List ℕ → Option ℕ) → Tells short.old long.old f → Tells short.new long.new (λ t. cond (same_bytes t text.now) (Some number) (f t))) }
    ensures err { OnErr result (IsUnchanged short.old short.new × IsUnchanged long.old long.new) }
{
    slice_known(text);
    if text.len() <= SHORT {
        short.insert(key_of(text), number)?;
        return Ok(());
    }
    let key = Vec::from_slice(alloc, text)?;
    long.insert(key, number)?;
    Ok(())
}

impl Twin for NumberedTexts {
    fn copy(&self, alloc: Global) -> Result<NumberedTexts, AllocError> {
        let hints = self.hints.copy(alloc);
        let texts = self.texts.clone()?;
        let short = self.short.clone()?;
        let long = self.long.clone()?;
        Ok(NumberedTexts {
            texts,
            short,
            long,
            hints,
        })
    }
}
