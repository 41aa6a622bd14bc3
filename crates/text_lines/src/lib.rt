// Lines cut out of the input, to numbers, and an answer to a line. On bytes alone: nothing is read or written here.
// Document 01, "One session, whole".
#![tactic(auto)]

ghost use Rattle.std.specs.Prelude.{◌≡◌, [], ◌∷◌, ◌++◌};
ghost use Rattle.rules.specs.Codes.{numbers_of};
ghost use Rattle.rules.specs.Words.{fold};
ghost use Rattle.text_numbers.specs.Lines.{line_of};
ghost use Rattle.text_lines.specs.Texts.{decimal, answer_line, text_of, followed, bytes_of, cut_at};

use rules::Outcome;
use text_numbers::Line;

// One byte more than a line may have: a longer line is known by it.
pub const ROOM: usize = text_numbers::LIMIT + 1;

// Up to 121 bytes, the unused places 0: a line of input as far as it tells anything, or the line of an answer.
#[derive(Clone, Copy)]
pub struct Text {
    pub bytes: [u8; ROOM],
    pub count: usize,
}

// What is cut out of a block of input: the line so far, and where the next one begins, if the newline has come.
#[derive(Clone, Copy)]
pub struct Cut {
    pub text: Text,
    pub next: Option<usize>,
}

// ---- bytes gathered: a line of input, the line of an answer

#[tactic(auto, unfolding(crate::specs::Texts::text_of))]
pub fn no_text() -> Text
    ensures { result ≡ text_of [] }
{
    Text {
        bytes: [0; ROOM],
        count: 0, // no byte yet
    }
}

// One byte more, where there is room.
#[tactic(auto, unfolding(crate::specs::Texts::followed))]
fn push(text: &mut Text, byte: u8)
    ensures { text.new ≡ followed text.old byte }
{
    if text.count < ROOM {
        text.bytes[text.count] = byte;
        text.count += 1;
    }
}

#[tactic(auto, using(crate::proofs::Texts::gather_more, crate::proofs::Texts::gather_end))]
fn gather(text: &mut Text, bytes: &[u8])
    ensures { text.new ≡ fold followed text.old bytes.now }
{
    for &byte in bytes {
        push(text, byte);
    }
}

// The line goes on in a block of input, from a place on up to the newline; where none comes, the next block has more of it.
pub fn cut_line(block: &[u8], at: usize, mut text: Text) -> Cut
    ensures { result ≡ cut_at block.now at text }
{
    let rest = &block[at.min(block.len())..];
    match rest.iter().position(|byte| *byte == b'\n') {
        Some(n) => {
            gather(&mut text, &rest[..n]);
            Cut {
                text,
                next: Some(at + n + 1),
            }
        }
        None => {
            gather(&mut text, rest);
            Cut { text, next: None }
        }
    }
}

// What a line that was gathered says; a count above 121 stands for 121 bytes.
pub fn parse_text(text: &Text) -> Option<Line>
    ensures { result ≡ line_of (bytes_of text.now) }
{
    text_numbers::parse(&text.bytes[..text.count.min(ROOM)])
}

// ---- an answer

// "none 0, read done 1, write done 2, read failed 3, write failed 4; then host, block, value"
pub fn numbers_of(o: Outcome) -> [u64; 4]
    ensures { let n = numbers_of o in result ≡ n.kind ∷ n.host ∷ n.block ∷ n.value ∷ [] }
{
    match o {
        Outcome::None => [0; 4],
        Outcome::ReadDone { host, block, value } => [1, host, block, value],
        Outcome::WriteDone { host, block } => [2, host, block, 0],
        Outcome::ReadFailed { host, block } => [3, host, block, 0],
        Outcome::WriteFailed { host, block } => [4, host, block, 0],
    }
}

// A number, and what stands after it.
fn push_number(text: &mut Text, n: u64, after: u8)
    ensures { text.new ≡ fold followed text.old (decimal n ++ after ∷ []) }
{
    gather(text, itoa::Buffer::new().format(n).as_bytes());
    push(text, after);
}

// "code, outcome, host, block, value"; "decimal, one space apart"
#[tactic(auto, using(crate::proofs::Texts::five_line), unfolding(crate::specs::Texts::answer_line))]
pub fn answer_text(code: u64, o: Outcome) -> Text
    ensures { result ≡ text_of (answer_line code o) }
{
    let [kind, host, block, value] = numbers_of(o);
    let mut text = no_text();
    push_number(&mut text, code, b' ');
    push_number(&mut text, kind, b' ');
    push_number(&mut text, host, b' ');
    push_number(&mut text, block, b' ');
    push_number(&mut text, value, b'\n');
    text
}
