ghost use Rattle.std.specs.Prelude.{◌≡◌};
ghost use Rattle.ob_script.specs.Commands.{word_of};

/// The words of `do` (this project).
#[derive(Clone, Copy, Debug, PartialEq, Eq)]
pub enum Word {
    Notebook,
    Define,
    Redefine,
    Delete,
    Input,
    Observe,
    Unobserve,
    Tick,
}

/// The word that a text is.
#[tactic(auto, unfolding(crate::specs::Commands::word_of))]
pub fn word_of(text: &str) -> Option<Word>
    ensures { result ≡ word_of text.now }
{
    if text == "notebook" {
        Some(Word::Notebook)
    } else if text == "define" {
        Some(Word::Define)
    } else if text == "redefine" {
        Some(Word::Redefine)
    } else if text == "delete" {
        Some(Word::Delete)
    } else if text == "input" {
        Some(Word::Input)
    } else if text == "observe" {
        Some(Word::Observe)
    } else if text == "unobserve" {
        Some(Word::Unobserve)
    } else if text == "tick" {
        Some(Word::Tick)
    } else {
        None
    }
}
