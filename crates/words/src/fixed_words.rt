// A Forward's fixed numbers and flags as words.
ghost use Rattle.std.specs.Prelude.{◌≡◌};
ghost use Rattle.wire.specs.Read.{fault_number};
ghost use Rattle.words.specs.Text.{strings_given};
ghost use Rattle.words.specs.FixedWords.{fixed_fault, ssl_fault, numbers_in, nulls_in};
ghost use Rattle.words.specs.Failure.{status_number};

use crate::number::{LAST_NUMBER, SET, flag_in, number_in};
use crate::status::Failure;
use crate::text::given;
use building::fault;
use pieces::forward::{Nulls, Numbers, Strings};
use wire::refusal::Refusal;

// How many words, and where each stands.
pub const FIXED_SIZE: usize = 8;

const METHOD: usize = 0;

const PORT: usize = 1;

const IS_SSL: usize = 2;

const NO_PROTOCOL: usize = 3;

const NO_REQ_URI: usize = 4;

const NO_REMOTE_ADDR: usize = 5;

const NO_REMOTE_HOST: usize = 6;

const NO_SERVER_NAME: usize = 7;

// The fault of the words: another number of them, or one out of range.
#[tactic(auto, unfolding(crate::specs::FixedWords::fixed_fault))]
pub fn fixed_fault(words: &[u32]) -> Result<(), Failure>
    ensures { status_number result ≡ fixed_fault words.now }
{
    if words.len() != FIXED_SIZE {
        return Err(Failure::FixedLength);
    }
    let fine = (words[PORT] <= LAST_NUMBER)
        & (words[NO_PROTOCOL] <= SET)
        & (words[NO_REQ_URI] <= SET)
        & (words[NO_REMOTE_ADDR] <= SET)
        & (words[NO_REMOTE_HOST] <= SET)
        & (words[NO_SERVER_NAME] <= SET);
    if fine {
        Ok(())
    } else {
        Err(Failure::FixedWord)
    }
}

// The fault of is_ssl: 7 where it is no flag.
pub fn ssl_fault(words: &[u32; FIXED_SIZE]) -> Result<(), Refusal>
    ensures { fault_number result ≡ ssl_fault words.now }
{
    fault::unless(words[IS_SSL] <= SET, Refusal::OutOfRange)
}

// The numbers that they are.
#[tactic(auto, unfolding(crate::specs::FixedWords::numbers_in))]
pub fn numbers_in(words: &[u32; FIXED_SIZE]) -> Numbers
    ensures { result ≡ numbers_in words.now }
{
    Numbers {
        method: number_in(words[METHOD]),
        server_port: number_in(words[PORT]),
        is_ssl: flag_in(words[IS_SSL]),
    }
}

// Which strings they say to be null.
#[tactic(auto, unfolding(crate::specs::FixedWords::nulls_in))]
pub fn nulls_in(words: &[u32; FIXED_SIZE]) -> Nulls
    ensures { result ≡ nulls_in words.now }
{
    Nulls {
        protocol: flag_in(words[NO_PROTOCOL]),
        req_uri: flag_in(words[NO_REQ_URI]),
        remote_addr: flag_in(words[NO_REMOTE_ADDR]),
        remote_host: flag_in(words[NO_REMOTE_HOST]),
        server_name: flag_in(words[NO_SERVER_NAME]),
    }
}

// The strings that they say, of these texts.
pub fn strings_in<'a>(
    words: &[u32; FIXED_SIZE],
    protocol: &'a [u8],
    uri: &'a [u8],
    addr: &'a [u8],
    host: &'a [u8],
    name: &'a [u8],
) -> Strings<'a>
    ensures { result ≡ strings_given (nulls_in words.now) protocol.entry uri.entry addr.entry host.entry name.entry }
{
    let nulls = nulls_in(words);
    Strings {
        protocol: given(nulls.protocol, protocol),
        req_uri: given(nulls.req_uri, uri),
        remote_addr: given(nulls.remote_addr, addr),
        remote_host: given(nulls.remote_host, host),
        server_name: given(nulls.server_name, name),
    }
}
