//! The number of processors in the first line of a test.

ghost use Rattle.std.specs.Prelude.{ℕ, List, IfOk, IfSome, IfNone};
ghost use Rattle.grammar.specs.Words.{words_of};
ghost use Rattle.expected.specs.Cases.{CpusLine};
ghost use Rattle.expected.specs.Parts.{IsSetting};

use grammar::Token;
use grammar::token::{next_word, read_tokens};
use mig_base::NoMemory;

/// What a first line says of the number of processors.
#[derive(Clone, Copy)]
pub(crate) enum Setting {
    /// Nothing.
    Absent,
    /// There are this many, 1 to 16.
    Count(u8),
    /// It begins with `# cpus`, and continues otherwise.
    Wrong,
}

/// What follows the words `#` and `cpus`, if a text begins with them.
fn behind_cpus(text: &[u8]) -> Option<&[u8]>
    ensures found { IfSome result (λ rest. CpusLine text.now (words_of rest.now)) }
    ensures none { IfNone result ((words : List (List ℕ)) → CpusLine text.now words → ⊥) }
{
    let (first, behind) = next_word(text)?;
    let (second, rest) = next_word(behind)?;
    if first == b"#".as_slice() && second == b"cpus".as_slice() {
        return Some(rest);
    }
    None
}

/// What the text of a first line says of the number of processors. The tokens are replaced.
pub(crate) fn setting_of(tokens: &mut Vec<Token>, text: &[u8]) -> Result<Setting, NoMemory>
    ensures { IfOk result (λ setting. IsSetting text.now setting) }
{
    let Some(rest) = behind_cpus(text) else {
        return Ok(Setting::Absent);
    };
    if !read_tokens(tokens, rest)? {
        return Ok(Setting::Wrong);
    }
    match tokens.as_slice() {
        [Token::Number(count @ 1..=16)] => Ok(Setting::Count(*count as u8)),
        _ => Ok(Setting::Wrong),
    }
}
