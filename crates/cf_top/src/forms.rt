//! What the words of a command line ask for.

ghost use Rattle.std.specs.Prelude.{◌≡◌, map, string_bytes};
ghost use Rattle.std.specs.Option.{option_map};
ghost use Rattle.std.specs.List.{list_all};
ghost use Rattle.std.specs.Char.{is_ascii_digit};
ghost use Rattle.cf_reference.specs.Forms.{form_of, seed_of};
ghost use Rattle.cf_top.specs.Asked.{form_view};

/// What a command line asks for.
#[derive(Clone, Copy, Debug, PartialEq, Eq)]
pub(crate) enum Form {
    /// The script of the source is carried out.
    Run,
    /// The script of a seed is carried out.
    Generated(u64),
}

/// What these words ask for, if they have a form.
pub(crate) fn form_of(words: &[String]) -> Option<Form>
    ensures { option_map form_view result ≡ form_of (map string_bytes words.now) }
{
    match words {
        [word] => {
            if word.as_str() == "run" {
                Some(Form::Run)
            } else {
                None
            }
        }
        [word, seed] => {
            if word.as_str() == "gen" {
                Some(Form::Generated(seed_of(seed.as_str())?))
            } else {
                None
            }
        }
        _ => None,
    }
}

/// The seed that a word spells. A sign, which `parse` would take, is refused.
fn seed_of(word: &str) -> Option<u64>
    ensures { result ≡ seed_of word.now }
{
    if are_digits(word.as_bytes()) {
        word.parse::<u64>().ok()
    } else {
        None
    }
}

fn are_digits(word: &[u8]) -> bool
    ensures { result ≡ list_all is_ascii_digit word.now }
{
    word.iter().all(|b| b.is_ascii_digit())
}
