// A check on the way and the checker's answer as words, for the C boundary. An error in the words of a check is found here.
#![tactic(auto)]

ghost use Rattle.std.specs.Prelude.{◌≡◌, eqb, take};
ghost use Rattle.std.specs.List.{list_any};
ghost use Rattle.wire.specs.Refusal.{is_fault, number_of};
ghost use Rattle.words.specs.ConnectionWords.{connection_size};
ghost use Rattle.words.specs.Failure.{status_number};
ghost use Rattle.checking_words.specs.CheckingWords.{are_figures, are_kept, are_checking, checking_room, checking_fault, byte_in, checking_in, checking_words, checked_fault, checked_words, finish_fault};

use checking::{Checked, Checking};
use wire::refusal;
use wire::refusal::Refusal;
use words::connection_words::{
    CONNECTION_SIZE, connection_fault, connection_in, connection_words, state_word,
};
use words::status::Failure;

// How many words a check has, and where each stands behind the connection's.
pub const CHECKING_SIZE: usize = 16;

const PACKETS: usize = 8;

const REQUESTS: usize = 9;

const BODY: usize = 10;

const PLACE: usize = 11;

const REFUSAL: usize = 12;

const FIRST_KEPT: usize = 13;

const SECOND_KEPT: usize = 14;

const THIRD_KEPT: usize = 15;

// The word that is kept for later.
const KEPT: u32 = 0;

// How many words the answer has.
pub const CHECKED_SIZE: usize = 8;

// The greatest number of a byte.
const LAST_BYTE: u32 = 255;

// The words of a check's connection.
fn held(words: &[u32; CHECKING_SIZE]) -> &[u32; CONNECTION_SIZE]
    ensures { result.now ≡ take connection_size words.now }
{
    words.first_chunk().unwrap()
}

// Whether the figures can be: none is above the place.
fn are_figures(words: &[u32; CHECKING_SIZE]) -> bool
    ensures { result ≡ are_figures words.now }
{
    let place = words[PLACE];
    (words[PACKETS] <= place) & (words[REQUESTS] <= place) & (words[BODY] <= place)
}

// Whether the words that are kept for later are 0.
fn are_kept(words: &[u32; CHECKING_SIZE]) -> bool
    ensures { result ≡ are_kept words.now }
{
    (words[FIRST_KEPT] == KEPT) & (words[SECOND_KEPT] == KEPT) & (words[THIRD_KEPT] == KEPT)
}

// Whether a word is the number of one of these refusals.
fn is_one_of(refusals: &[Refusal], word: u32) -> bool
    ensures { result ≡ list_any (λ refusal. eqb (number_of refusal) word) refusals.now }
{
    refusals
        .iter()
        .any(|refusal| u32::from(refusal.number()) == word)
}

// Whether a word is 0 or the number of a refusal.
fn is_fault(word: u32) -> bool
    ensures { result ≡ is_fault word }
{
    word == 0 || is_one_of(&refusal::all(), word)
}

// Whether words are those of a check.
#[tactic(auto, using(words::proofs::Failures::failure_some), unfolding(crate::specs::CheckingWords::are_checking))]
fn are_checking(words: &[u32; CHECKING_SIZE]) -> bool
    ensures { result ≡ are_checking words.now }
{
    connection_fault(held(words)).is_ok()
        && are_figures(words)
        && is_fault(words[REFUSAL])
        && are_kept(words)
}

// The fault of an array that is to take a check.
#[tactic(auto, unfolding(crate::specs::CheckingWords::checking_room))]
pub fn checking_room(words: &[u32]) -> Result<(), Failure>
    ensures { status_number result ≡ checking_room words.now }
{
    if words.len() == CHECKING_SIZE {
        Ok(())
    } else {
        Err(Failure::CheckingLength)
    }
}

// The fault of the words of a check: another number of them, or one that no check has.
#[tactic(auto, unfolding(crate::specs::CheckingWords::checking_fault))]
pub fn checking_fault(words: &[u32]) -> Result<(), Failure>
    ensures { status_number result ≡ checking_fault words.now }
{
    let words = words.as_array().ok_or(Failure::CheckingLength)?;
    if are_checking(words) {
        Ok(())
    } else {
        Err(Failure::CheckingWord)
    }
}

// The number of a refusal that a word stands for.
#[tactic(auto, unfolding(crate::specs::CheckingWords::byte_in))]
fn byte_in(word: u32) -> u8
    ensures { result ≡ byte_in word }
{
    word.min(LAST_BYTE) as u8
}

// The check that words are, also where they have a fault.
#[tactic(auto, unfolding(crate::specs::CheckingWords::checking_in))]
pub fn checking_in(words: &[u32; CHECKING_SIZE]) -> Checking
    ensures { result ≡ checking_in words.now }
{
    Checking {
        connection: connection_in(held(words)),
        packets: words[PACKETS],
        requests: words[REQUESTS],
        body: words[BODY],
        place: words[PLACE],
        refusal: byte_in(words[REFUSAL]),
    }
}

// The words of a check. The connection's eight come first, in their order.
#[tactic(auto, unfolding(crate::specs::CheckingWords::checking_words, words::specs::ConnectionWords::connection_words))]
pub fn checking_words(checking: Checking) -> [u32; CHECKING_SIZE]
    ensures { result ≡ checking_words checking }
{
    let [state, left, due, asked, headers, head, edition, open] = connection_words(
        checking.connection,
    );
    [
        state,
        left,
        due,
        asked,
        headers,
        head,
        edition,
        open,
        checking.packets,
        checking.requests,
        checking.body,
        checking.place,
        u32::from(checking.refusal),
        KEPT,
        KEPT,
        KEPT,
    ]
}

// Writes the words of a check.
pub fn put_checking(words: &mut [u32; CHECKING_SIZE], checking: Checking)
    ensures { words.new ≡ checking_words checking }
{
    *words = checking_words(checking);
}

// The fault of an array that is to take an answer.
#[tactic(auto, unfolding(crate::specs::CheckingWords::checked_fault))]
pub fn checked_fault(words: &[u32]) -> Result<(), Failure>
    ensures { status_number result ≡ checked_fault words.now }
{
    if words.len() == CHECKED_SIZE {
        Ok(())
    } else {
        Err(Failure::AnswerLength)
    }
}

// What is looked for first where a check is finished.
#[tactic(auto, using(words::proofs::Failures::and_number), unfolding(crate::specs::CheckingWords::finish_fault))]
pub fn finish_fault(words: &[u32], answer: &[u32]) -> Result<(), Failure>
    ensures { status_number result ≡ finish_fault words.now answer.now }
{
    checked_fault(answer).and(checking_fault(words))
}

// The words of an answer.
#[tactic(auto, unfolding(crate::specs::CheckingWords::checked_words))]
pub fn checked_words(checked: Checked) -> [u32; CHECKED_SIZE]
    ensures { result ≡ checked_words checked }
{
    [
        checked.packets,
        checked.requests,
        checked.body,
        state_word(checked.state),
        u32::from(checked.refusal),
        checked.place,
        KEPT,
        KEPT,
    ]
}

// Writes the words of an answer.
pub fn put_checked(words: &mut [u32; CHECKED_SIZE], checked: Checked)
    ensures { words.new ≡ checked_words checked }
{
    *words = checked_words(checked);
}
