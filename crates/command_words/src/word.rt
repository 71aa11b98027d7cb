//! One word after the command: KEY=value.
ghost use Rattle.std.specs.Prelude.{◌≡◌, map, string_bytes};
ghost use Rattle.command_words.specs.Word.{key_value, has_key, is_given, value_in};
ghost use Rattle.command_words.specs.Settings.{seen, text_of};

use le_bytes::Name;

/// A word taken apart at its first `=`.
#[derive(Clone, Copy)]
pub(crate) struct Setting<'a> {
    pub key: Name,
    pub value: &'a str,
}

/// The key and the value of a word. None exactly where what stands before the first `=` is no name,
/// or nothing stands after it.
#[tactic(auto, unfolding(crate::specs::Word::key_value))]
pub(crate) fn setting_in(word: &str) -> Option<Setting<'_>>
    ensures { seen result ≡ key_value word.now }
{
    let (key, value) = word.split_once('=')?;
    if value.is_empty() {
        return None;
    }
    let key = Name::from_text(key)?;
    Some(Setting { key, value })
}

/// Whether a word has this key.
pub fn has_key(key: Name, word: &str) -> bool
    ensures { result ≡ has_key key word.now }
{
    match setting_in(word) {
        Some(setting) => setting.key == key,
        None => false,
    }
}

/// Whether some word has this key.
pub(crate) fn is_given(key: Name, words: &[String]) -> bool
    ensures { result ≡ is_given key (map string_bytes words.now) }
{
    words.iter().any(|word| has_key(key, word.as_str()))
}

/// The value in the first word that has this key.
pub(crate) fn value_in(key: Name, words: &[String]) -> Option<&str>
    ensures { text_of result ≡ value_in key (map string_bytes words.now) }
{
    for word in words {
        if let Some(setting) = setting_in(word.as_str()) {
            if setting.key == key {
                return Some(setting.value);
            }
        }
    }
    None
}
