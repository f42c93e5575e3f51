// What single bytes stand for, and how far a run of them goes.
ghost use Rattle.std.specs.Prelude.{◌≡◌, ◌≤◌, length};
ghost use Rattle.std.specs.Char.{is_ascii_digit};
ghost use Rattle.std.specs.List.{prefix_len};
ghost use Rattle.ms_lex.specs.Bytes.{starts_word, continues_word, is_separator, is_mark, is_quotable};

const MARKS: &[u8] = b"(){}[]<>,=:*+|";

pub fn starts_word(byte: u8) -> bool
    ensures { result ≡ starts_word byte }
{
    byte.is_ascii_alphabetic() || byte == b'$' || byte == b'.' || byte == b'_'
}

pub fn continues_word(byte: u8) -> bool
    ensures { result ≡ continues_word byte }
{
    starts_word(byte) || byte.is_ascii_digit() || byte == b'-'
}

pub fn is_separator(byte: u8) -> bool
    ensures { result ≡ is_separator byte }
{
    byte == b' ' || byte == b'\t' || byte == b'\r'
}

#[tactic(auto, unfolding(crate::specs::Bytes::is_mark))]
pub fn is_mark(byte: u8) -> bool
    ensures { result ≡ is_mark byte }
{
    MARKS.contains(&byte)
}

// How many bytes at the front may stand in a word behind its first.
pub fn word_run(bytes: &[u8]) -> usize
    ensures run { result ≡ prefix_len continues_word bytes.now }
    ensures within { result ≤ length bytes.now }
{
    bytes
        .iter()
        .take_while(|byte| continues_word(**byte))
        .count()
}

// How many digits stand at the front.
pub fn digit_run(bytes: &[u8]) -> usize
    ensures run { result ≡ prefix_len is_ascii_digit bytes.now }
    ensures within { result ≤ length bytes.now }
{
    bytes
        .iter()
        .take_while(|byte| byte.is_ascii_digit())
        .count()
}

// How many bytes at the front may stand in a string.
pub fn quotable_run(bytes: &[u8]) -> usize
    ensures run { result ≡ prefix_len is_quotable bytes.now }
    ensures within { result ≤ length bytes.now }
{
    bytes
        .iter()
        .take_while(|byte| **byte != b'"' && **byte != b'\n')
        .count()
}
