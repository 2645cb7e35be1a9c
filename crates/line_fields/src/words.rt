//! Words at the front of a line.

ghost use Rattle.std.specs.Prelude.{◌≡◌, ◌≢◌, ◌≤◌, List, ℕ, length, MatchOption};
ghost use Rattle.std.specs.List.{prefix_len};
ghost use Rattle.line_fields.specs.Fields.{FieldsAreOne, IsWord, is_in_word, spaced};

/// A word, and what stands behind the space behind it.
#[derive(Debug, Drop)]
pub struct Word<'a> {
    pub word: &'a [u8],
    pub rest: &'a [u8],
}

fn word_len(line: &[u8]) -> usize
    ensures passing { result ≡ prefix_len is_in_word line.now }
    ensures within { result ≤ length line.now }
{
    line.iter().take_while(|byte| **byte != b' ').count()
}

/// The word at the front of the line, where a space stands behind it.
pub fn spaced_word(line: &[u8]) -> Option<Word<'_>>
    ensures { MatchOption result ((word rest : List ℕ) → line.now ≢ spaced word rest) (λ got. IsWord got.word.now × (line.now ≡ spaced got.word.now got.rest.now)) }
{
    let len = word_len(line);
    if len == line.len() {
        return None;
    }
    Some(Word {
        word: &line[..len],
        rest: &line[len + 1..],
    })
}

/// A line has one first field.
pub fn fields_are_one()
    ensures { FieldsAreOne }
{}
