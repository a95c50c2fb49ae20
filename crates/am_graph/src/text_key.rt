//! A number of the bytes of a short text.
ghost use Rattle.std.specs.Prelude.{◌≡◌, ◌≤◌, length};
ghost use Rattle.am_graph.specs.Numbers.{key_of};

/// How many bytes a text has at most that is short.
pub const SHORT: usize = 16;

/// The bytes of a short text as one number, and how many they are: together they tell the text.
#[inline(always)]
pub fn key_of(text: &[u8]) -> (u128, usize)
    requires { length text.now ≤ 16 }
    ensures { result ≡ key_of text.now }
{
    let mut word: u128 = 0;
    for i in 0..text.len() {
        word = word * 256 + text[i] as u128;
    }
    (word, text.len())
}
