// A Forward and a Send Headers, which are written in pieces: the fixed fields, then each header, then each attribute.
use building_record::Building;
use connection::{Connection, Written};
use pieces::forward::{Numbers, Strings};
use pieces::{attribute, code, forward, header, send_headers};
use wire::refusal::Refusal;

// The code of attributes that bring their name with them, and one that no method and no attribute has.
const PAIR: u16 = 10;

const NO_CODE: u16 = 0;

#[derive(Clone, Copy)]
pub struct Header<'a> {
    pub name: &'a str,
    pub value: &'a str,
}

// An attribute's name, and its value: a text, or an integer. A pair brings its name with it.
#[derive(Clone, Copy)]
pub enum Attribute<'a> {
    Text(&'a str, &'a str),
    Integer(&'a str, u16),
    Pair(&'a str, &'a str),
}

#[derive(Clone, Copy)]
pub struct Request<'a> {
    pub method: &'a str,
    pub req_uri: &'a str,
    pub server_port: u16,
    pub is_ssl: bool,
    pub headers: &'a [Header<'a>],
    pub attributes: &'a [Attribute<'a>],
}

#[derive(Clone, Copy)]
pub struct Response<'a> {
    pub status: u16,
    pub message: &'a str,
    pub headers: &'a [Header<'a>],
}

impl Request<'_> {
    // Builds the Forward and closes it. The first piece that is refused is what becomes of the packet.
    pub fn write(self, connection: Connection, buffer: &mut [u8]) -> Result<Written, Refusal> {
        let mut building = self.begun(buffer)?;
        for header in self.headers {
            building = header.put(building, buffer)?;
        }
        for attribute in self.attributes {
            building = attribute.put(building, buffer)?;
        }
        closing::close(connection, building, buffer)
    }

    // The fixed fields. The name of the host that asks is not known.
    fn begun(self, buffer: &mut [u8]) -> Result<Building, Refusal> {
        let numbers = Numbers {
            method: code::of_method(self.method.as_bytes()).unwrap_or(NO_CODE),
            server_port: self.server_port,
            is_ssl: self.is_ssl,
        };
        let strings = Strings {
            protocol: Some(b"HTTP/1.1"),
            req_uri: Some(self.req_uri.as_bytes()),
            remote_addr: Some(b"192.0.2.15"),
            remote_host: None,
            server_name: Some(b"orchard.example"),
        };
        forward::begin(buffer, numbers, strings)
    }
}

impl Response<'_> {
    // Builds the Send Headers and closes it, in the same way.
    pub fn write(self, connection: Connection, buffer: &mut [u8]) -> Result<Written, Refusal> {
        let mut building = send_headers::begin(buffer, self.status, Some(self.message.as_bytes()))?;
        for header in self.headers {
            building = header.put(building, buffer)?;
        }
        closing::close(connection, building, buffer)
    }
}

impl Header<'_> {
    fn put(self, building: Building, buffer: &mut [u8]) -> Result<Building, Refusal> {
        header::named(
            building,
            buffer,
            self.name.as_bytes(),
            Some(self.value.as_bytes()),
        )
    }
}

impl Attribute<'_> {
    fn put(self, building: Building, buffer: &mut [u8]) -> Result<Building, Refusal> {
        match self {
            Attribute::Text(name, value) => attribute::text(
                building,
                buffer,
                attribute_code(name),
                Some(value.as_bytes()),
            ),
            Attribute::Integer(name, value) => {
                attribute::integer(building, buffer, attribute_code(name), value)
            }
            Attribute::Pair(name, value) => attribute::pair(
                building,
                buffer,
                PAIR,
                Some(name.as_bytes()),
                Some(value.as_bytes()),
            ),
        }
    }
}

// The code of the attribute of a name.
fn attribute_code(name: &str) -> u16 {
    code::of_attribute(name.as_bytes()).unwrap_or(NO_CODE)
}
