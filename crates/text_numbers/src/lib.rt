// A line of input to numbers: what a good line says, and which line is bad. On bytes alone.
// Document 01, "One session, whole".
#![tactic(auto)]

ghost use Rattle.std.specs.Prelude.{◌≡◌};
ghost use Rattle.text_numbers.specs.Lines.{line_of};
ghost use Rattle.text_numbers.specs.Digits.{continued, number_of};

// "longer than 120 bytes"
pub const LIMIT: usize = 120;

// The second line has the most numbers: one a block.
pub const NUMBERS: usize = rules::BLOCKS;

// What a good line says: how many numbers, and the first 16 of them, the unused places 0.
#[derive(Clone, Copy)]
pub struct Line {
    pub count: u64,
    pub numbers: [u64; NUMBERS],
}

// One digit more, as long as the number fits 64 bits; any other byte is no digit.
fn add_digit(value: u64, byte: u8) -> Option<u64>
    ensures { result ≡ continued value byte }
{
    match byte {
        b'0'..=b'9' => value.checked_mul(10)?.checked_add(u64::from(byte - b'0')),
        _ => None,
    }
}

// The number that a word is; "not a number, a number above 64 bits" is none.
#[tactic(auto, using(crate::proofs::Laws::more_read, crate::proofs::Laws::none_read, crate::proofs::Laws::all_read, crate::proofs::Laws::word_read, crate::proofs::Laws::no_word))]
fn number(word: &[u8]) -> Option<u64>
    ensures { result ≡ number_of word.now }
{
    if word.is_empty() {
        return None;
    }
    let mut value = 0;
    for &byte in word {
        value = add_digit(value, byte)?;
    }
    Some(value)
}

// What a line says; one that is longer than 120 bytes is not looked at.
#[tactic(auto, unfolding(rules::specs::Words::each, rules::specs::Words::every))]
pub fn parse(line: &[u8]) -> Option<Line>
    ensures { result ≡ line_of line.now }
{
    if LIMIT < line.len() {
        return None;
    }
    let mut said = Line {
        count: 0,
        numbers: [0; NUMBERS],
    };
    for (i, word) in line.split(|byte| *byte == b' ').enumerate() {
        let n = number(word)?;
        if i < NUMBERS {
            said.numbers[i] = n;
        }
        said.count += 1;
    }
    Some(said)
}
