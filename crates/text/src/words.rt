// The words of a line: what spaces and tabs keep apart.
ghost use Rattle.std.specs.Prelude.{◌≡◌, ◌<◌, ◌≤◌, [], ◌∷◌, ◌++◌, length, IfSome, MatchOption, OnOk};
ghost use Rattle.std.specs.Option.{option_map};
ghost use Rattle.std.specs.List.{prefix_len};
ghost use Rattle.text.specs.Lines.{blank, of_kind, past_blanks, split_word, cut_word, is_comment, words_of, spaced, echo_of};

use std::alloc::AllocError;

pub(crate) fn is_blank(byte: u8) -> bool
    ensures { result ≡ blank byte }
{
    matches!(byte, b' ' | b'\t')
}

// How many bytes at the front are blanks, or are none.
fn run_length(bytes: &[u8], blanks: bool) -> usize
    ensures value { result ≡ prefix_len (of_kind blanks) bytes.now }
    ensures bound { result ≤ length bytes.now }
{
    bytes
        .iter()
        .take_while(|byte| is_blank(**byte) == blanks)
        .count()
}

fn past_blanks(line: &[u8]) -> &[u8]
    ensures value { result.now ≡ past_blanks line.now }
    ensures solid { prefix_len blank result.now ≡ 0 }
    ensures words { words_of result.now ≡ words_of line.now }
    ensures bound { length result.now ≤ length line.now }
{
    let (_, rest) = line.split_at(run_length(line, true));
    rest
}

// The word that the bytes begin with, and what stands behind it.
#[tactic(auto, using(crate::proofs::Cutting::words_none, crate::proofs::Cutting::words_split, crate::proofs::Cutting::word_some), unfolding(crate::specs::Lines::split_word))]
fn split_word(bytes: &[u8]) -> Option<(&[u8], &[u8])>
    requires { prefix_len blank bytes.now ≡ 0 }
    ensures value { option_map (λ p. (p.0.now, p.1.now)) result ≡ split_word bytes.now }
    ensures words { MatchOption result (words_of bytes.now ≡ []) (λ p. words_of bytes.now ≡ p.0.now ∷ words_of p.1.now) }
    ensures bound { IfSome result (λ p. length p.1.now < length bytes.now) }
{
    if bytes.is_empty() {
        return None;
    }
    Some(bytes.split_at(run_length(bytes, false)))
}

// The first word of a line, and the rest of the line behind it; None if there are only blanks.
pub fn next_word(line: &[u8]) -> Option<(&[u8], &[u8])>
    ensures value { option_map (λ p. (p.0.now, p.1.now)) result ≡ cut_word line.now }
    ensures words { MatchOption result (words_of line.now ≡ []) (λ p. words_of line.now ≡ p.0.now ∷ words_of p.1.now) }
    ensures bound { IfSome result (λ p. length p.1.now < length line.now) }
{
    split_word(past_blanks(line))
}

// Whether a line has no word, or begins with `#` behind its blanks.
pub fn is_comment(line: &[u8]) -> bool
    ensures { result ≡ is_comment line.now }
{
    past_blanks(line).first().is_none_or(|byte| *byte == b'#')
}

// Appends the words of a line, with a space between two.
fn write_words(out: &mut Vec<u8>, line: &[u8]) -> Result<(), AllocError>
    ensures { OnOk result (out.new.items ≡ out.old.items ++ spaced (words_of line.now)) }
{
    let Some((first, mut rest)) = next_word(line) else {
        return Ok(());
    };
    out.extend_from_slice(first)?;
    while let Some((word, after)) = next_word(rest) {
        out.push(b' ')?;
        out.extend_from_slice(word)?;
        rest = after;
    }
    Ok(())
}

// Appends `> ` and the words of a line, with a space between two.
pub fn write_echo(out: &mut Vec<u8>, line: &[u8]) -> Result<(), AllocError>
    ensures { OnOk result (out.new.items ≡ out.old.items ++ echo_of line.now) }
{
    out.extend_from_slice(b"> ")?;
    write_words(out, line)
}
