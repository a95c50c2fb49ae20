//! Texts that are lent.
ghost use Rattle.std.specs.Prelude.{◌≡◌, option_map};

use am_types::Text;

/// The text of a name, if there is one.
pub fn text_in(name: &Option<Text>) -> Option<&str>
    ensures { option_map (λ s. s.now) result ≡ name.now }
{
    match name {
        Some(text) => Some(text.as_str()),
        None => None,
    }
}
