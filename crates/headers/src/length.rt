// The declared length of a request's body.
ghost use Rattle.std.specs.Prelude.{◌≡◌};
ghost use Rattle.wire.specs.Text.{is_null, bytes_in};
ghost use Rattle.headers.specs.Read.{length_meaning};
ghost use Rattle.headers.specs.Length.{is_content_length, decimal_of, length_after, declared_length};

use wire::refusal::Refusal;

// Whether a request header's code is that of content-length.
pub fn is_content_length(code: u16) -> bool
    ensures { result ≡ is_content_length code }
{
    code == 0xA008
}

// The number that a text spells: 1 to 10 digits, at most 4294967295.
#[tactic(auto, using(crate::proofs::ContentLength::start, crate::proofs::ContentLength::stop, crate::proofs::ContentLength::done, crate::proofs::ContentLength::no_decimal))]
pub fn decimal_of(text: &[u8]) -> Option<u32>
    ensures { result ≡ decimal_of text.now }
{
    if !(1..=10).contains(&text.len()) {
        return None;
    }
    let mut sum: u64 = 0;
    for &b in text {
        if !b.is_ascii_digit() {
            return None;
        }
        sum = sum * 10 + u64::from(b - b'0');
    }
    u32::try_from(sum).ok()
}

// What is declared after a content-length's value. A second one and null are refused.
pub fn length_after(before: Option<u32>, value: Option<&[u8]>) -> Result<Option<u32>, Refusal>
    ensures { length_meaning result ≡ length_after before (is_null value.entry) (bytes_in value.entry) }
{
    match (before, value) {
        (None, Some(text)) => {
            let length = decimal_of(text).ok_or(Refusal::ContentLengthWrong)?;
            Ok(Some(length))
        }
        _ => Err(Refusal::ContentLengthWrong),
    }
}

// The length that a request declared, 0 where it declared none, as the definition `declared_length` has it.
pub fn length_of(declared: Option<u32>) -> u32
    ensures { result ≡ declared_length declared }
{
    declared.unwrap_or(0)
}
