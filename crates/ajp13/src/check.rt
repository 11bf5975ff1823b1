// The checker over a capture: whole, and in parts.
ghost use Rattle.std.specs.Prelude.{◌≡◌};
ghost use Rattle.words.specs.Failure.{status_number};
ghost use Rattle.checking_words.specs.CheckingWords.{checking_room, checking_fault, checked_fault, finish_fault, check_after, begun_after, gone_on_after, finished_after};

use checking::Checking;
use checking_words::{checking_fault, checking_in, put_checked, put_checking};
use words::status::{Failure, status_of};

#[tactic(auto, unfolding(checking_words::specs::CheckingWords::checked_fault, checking_words::specs::CheckingWords::check_after))]
fn check(capture: &[u8], checked: &mut [u32]) -> Result<(), Failure>
    ensures value { status_number result ≡ checked_fault checked.old }
    ensures checked_after { checked.new ≡ check_after capture.now checked.old }
{
    let checked = checked.as_mut_array().ok_or(Failure::AnswerLength)?;
    put_checked(checked, checking::check(capture));
    Ok(())
}

// Checks a whole capture.
#[unsafe(no_mangle)]
pub extern "C" fn ajp13_words_check(capture: &[u8], checked: &mut [u32]) -> u32
    ensures value { result ≡ checked_fault checked.old }
    ensures checked_after { checked.new ≡ check_after capture.now checked.old }
{
    status_of(check(capture, checked))
}

#[tactic(auto, unfolding(checking_words::specs::CheckingWords::checking_room, checking_words::specs::CheckingWords::begun_after))]
fn begin(checking: &mut [u32]) -> Result<(), Failure>
    ensures value { status_number result ≡ checking_room checking.old }
    ensures checking_after { checking.new ≡ begun_after checking.old }
{
    let words = checking.as_mut_array().ok_or(Failure::CheckingLength)?;
    put_checking(words, Checking::begin());
    Ok(())
}

// Begins a check in parts. What stood there does not matter.
#[unsafe(no_mangle)]
pub extern "C" fn ajp13_words_check_begin(checking: &mut [u32]) -> u32
    ensures value { result ≡ checking_room checking.old }
    ensures checking_after { checking.new ≡ begun_after checking.old }
{
    status_of(begin(checking))
}

#[tactic(auto, unfolding(checking_words::specs::CheckingWords::checking_fault, checking_words::specs::CheckingWords::gone_on_after))]
fn go_on(checking: &mut [u32], bytes: &[u8]) -> Result<(), Failure>
    ensures value { status_number result ≡ checking_fault checking.old }
    ensures checking_after { checking.new ≡ gone_on_after checking.old bytes.now }
{
    checking_fault(checking)?;
    let words = checking.as_mut_array().ok_or(Failure::CheckingLength)?;
    put_checking(words, checking_in(words).go_on(bytes));
    Ok(())
}

// Goes on with more bytes: its place moves by as many as it takes.
#[unsafe(no_mangle)]
pub extern "C" fn ajp13_words_check_go_on(checking: &mut [u32], bytes: &[u8]) -> u32
    ensures value { result ≡ checking_fault checking.old }
    ensures checking_after { checking.new ≡ gone_on_after checking.old bytes.now }
{
    status_of(go_on(checking, bytes))
}

#[tactic(auto, unfolding(checking_words::specs::CheckingWords::checked_fault, checking_words::specs::CheckingWords::checking_fault, checking_words::specs::CheckingWords::finish_fault, checking_words::specs::CheckingWords::finished_after))]
fn finish(checking: &[u32], size: u64, checked: &mut [u32]) -> Result<(), Failure>
    ensures value { status_number result ≡ finish_fault checking.now checked.old }
    ensures checked_after { checked.new ≡ finished_after checking.now size checked.old }
{
    let checked = checked.as_mut_array().ok_or(Failure::AnswerLength)?;
    checking_fault(checking)?;
    let words = checking.as_array().ok_or(Failure::CheckingLength)?;
    put_checked(checked, checking_in(words).finish(size));
    Ok(())
}

// Finishes a check of a capture of so many bytes.
#[unsafe(no_mangle)]
pub extern "C" fn ajp13_words_check_finish(checking: &[u32], size: u64, checked: &mut [u32]) -> u32
    ensures value { result ≡ finish_fault checking.now checked.old }
    ensures checked_after { checked.new ≡ finished_after checking.now size checked.old }
{
    status_of(finish(checking, size, checked))
}
