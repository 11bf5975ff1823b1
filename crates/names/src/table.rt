// The listed names, and look-ups both ways.
ghost use Rattle.std.specs.Prelude.{◌≡◌, map};
ghost use Rattle.std.specs.List.{position};
ghost use Rattle.names.specs.Names.{names_in, first_code, ignores_case, is_listed, name_for, same_name, code_in};
ghost use Rattle.names.specs.Row.{padded, name_bytes};

use crate::NameList;
use packet::{NAME_ROOM, Name};

// Codes 1 to 27.
static METHOD_NAMES: [&str; 27] = [
    "OPTIONS",
    "GET",
    "HEAD",
    "POST",
    "PUT",
    "DELETE",
    "TRACE",
    "PROPFIND",
    "PROPPATCH",
    "MKCOL",
    "COPY",
    "MOVE",
    "LOCK",
    "UNLOCK",
    "ACL",
    "REPORT",
    "VERSION-CONTROL",
    "CHECKIN",
    "CHECKOUT",
    "UNCHECKOUT",
    "SEARCH",
    "MKWORKSPACE",
    "UPDATE",
    "LABEL",
    "MERGE",
    "BASELINE_CONTROL",
    "MKACTIVITY",
];

// Codes A001 to A00E.
static REQUEST_NAMES: [&str; 14] = [
    "accept",
    "accept-charset",
    "accept-encoding",
    "accept-language",
    "authorization",
    "connection",
    "content-type",
    "content-length",
    "cookie",
    "cookie2",
    "host",
    "pragma",
    "referer",
    "user-agent",
];

// Codes A001 to A00B.
static RESPONSE_NAMES: [&str; 11] = [
    "Content-Type",
    "Content-Language",
    "Content-Length",
    "Date",
    "Last-Modified",
    "Location",
    "Set-Cookie",
    "Set-Cookie2",
    "Servlet-Engine",
    "Status",
    "WWW-Authenticate",
];

// Codes 03 to 0D.
static ATTRIBUTE_NAMES: [&str; 11] = [
    "remote_user",
    "auth_type",
    "query_string",
    "route",
    "ssl_cert",
    "ssl_cipher",
    "ssl_session",
    "req_attribute",
    "ssl_key_size",
    "secret",
    "stored_method",
];

// A list of names as it is searched: the names in the order of their codes, the code of the first, and whether capital and small letters
// are taken as one.
#[derive(Clone, Copy, Debug, PartialEq, Eq)]
struct Table {
    names: &'static [&'static str],
    first: u16,
    ignoring: bool,
}

// The table of a list.
#[tactic(auto, unfolding(crate::specs::Names::method_names, crate::specs::Names::request_names, crate::specs::Names::response_names, crate::specs::Names::attribute_names))]
fn table_of(list: NameList) -> Table
    ensures names { map (λ name. name.now) result.names.now ≡ names_in list }
    ensures first { result.first ≡ first_code list }
    ensures ignoring { result.ignoring ≡ ignores_case list }
{
    match list {
        NameList::Methods => Table {
            names: &METHOD_NAMES,
            first: 1,
            ignoring: false,
        },
        NameList::RequestHeaders => Table {
            names: &REQUEST_NAMES,
            first: 0xA001,
            ignoring: true,
        },
        NameList::ResponseHeaders => Table {
            names: &RESPONSE_NAMES,
            first: 0xA001,
            ignoring: true,
        },
        NameList::Attributes => Table {
            names: &ATTRIBUTE_NAMES,
            first: 3,
            ignoring: false,
        },
    }
}

// Whether a code is in a list.
pub fn is_listed(list: NameList, code: u16) -> bool
    ensures { result ≡ is_listed list code }
{
    let table = table_of(list);
    code >= table.first && ((code - table.first) as usize) < table.names.len()
}

// The bytes of the name for a code; none where it is not listed.
fn bytes_for(list: NameList, code: u16) -> &'static [u8]
    ensures { result.now ≡ name_for list code }
{
    let table = table_of(list);
    let Some(k) = code.checked_sub(table.first) else {
        return &[];
    };
    match table.names.get(k as usize) {
        Some(name) => name.as_bytes(),
        None => &[],
    }
}

// The name for a code; no bytes where it is not listed. A `Name` has a length beside its bytes since the C call `ajp13_name` copies it out.
pub fn name_of(list: NameList, code: u16) -> Name
    ensures { result ≡ padded (name_for list code) }
{
    let text = bytes_for(list, code);
    let mut bytes = [0; NAME_ROOM];
    bytes[..text.len()].copy_from_slice(text);
    Name {
        bytes,
        len: text.len(),
    }
}

// Whether a text is a name, where capital and small letters are taken as one or not. Mostly the lengths tell, and a text that is the name
// is mostly the name as it stands.
#[tactic(auto, using(crate::proofs::Tables::same_bytes, crate::proofs::Tables::same_exact, crate::proofs::Laws::same_length))]
#[inline(always)]
pub fn is_same(ignoring: bool, name: &[u8], text: &[u8]) -> bool
    ensures { result ≡ same_name ignoring name.now text.now }
{
    name.len() == text.len() && (name == text || (ignoring && name.eq_ignore_ascii_case(text)))
}

// Whether a text spells a name.
pub fn spells(ignoring: bool, name: Name, text: &[u8]) -> bool
    ensures { result ≡ same_name ignoring (name_bytes name) text.now }
{
    is_same(ignoring, &name.bytes[..name.len.min(NAME_ROOM)], text)
}

// The place of the first of these names that a text spells.
fn place_of(ignoring: bool, names: &[&str], text: &[u8]) -> Option<usize>
    ensures { result ≡ position (λ name. same_name ignoring name.now text.now) names.now }
{
    names
        .iter()
        .position(|name| is_same(ignoring, name.as_bytes(), text))
}

// The code of the name that a text spells.
pub fn code_of(list: NameList, text: &[u8]) -> Option<u16>
    ensures { result ≡ code_in list text.now }
{
    let table = table_of(list);
    match place_of(table.ignoring, table.names, text) {
        Some(k) => Some(table.first + k as u16),
        None => None,
    }
}
