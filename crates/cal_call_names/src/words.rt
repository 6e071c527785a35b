//! The words of `names`: that word alone.
ghost use Rattle.std.specs.Prelude.{◌≡◌, map, string_bytes};
ghost use Rattle.cal_call_names.specs.Words.{asked, begins_names};

/// Whether the words behind the program's name are for `run_names`: the first is `names`.
pub fn asks_for_names(words: &[String]) -> bool
    ensures { result ≡ begins_names (map string_bytes words.now) }
{
    match words.first() {
        Some(command) => command.as_str() == "names",
        None => false,
    }
}

/// Whether the words behind the program's name keep the word rule, which is to be the one word
/// `names`; else the place, from 0, of the first that breaks it. It takes no memory.
pub fn read_names_words(words: &[String]) -> Result<(), u32>
    ensures { result ≡ asked words.now }
{
    match words {
        [command] if command.as_str() == "names" => Ok(()),
        [command, _, ..] if command.as_str() == "names" => Err(1),
        _ => Err(0),
    }
}
