// What is sent: a packet by its kind, and what it holds.
use crate::piece::{Request, Response};
use connection::{Connection, Written};
use packet::Direction;
use std::fmt;
use wire::refusal::Refusal;

#[derive(Clone, Copy)]
pub enum Content<'a> {
    CPing,
    CPong,
    Forward(Request<'a>),
    Body(&'a str),
    GetBody(u16),
    SendHeaders(Response<'a>),
    BodyChunk(&'a str),
    End { reuse: bool },
}

impl Content<'_> {
    // Which way the packet goes.
    pub fn direction(self) -> Direction {
        match self {
            Content::CPing | Content::Forward(_) | Content::Body(_) => Direction::ToContainer,
            _ => Direction::ToServer,
        }
    }

    // Writes the packet into a buffer.
    pub fn write(self, connection: Connection, buffer: &mut [u8]) -> Result<Written, Refusal> {
        match self {
            Content::CPing => writer::cping(connection, buffer),
            Content::CPong => writer::cpong(connection, buffer),
            Content::Forward(request) => request.write(connection, buffer),
            Content::Body(text) => writer::body(connection, buffer, text.as_bytes()),
            Content::GetBody(asked) => writer::get_body(connection, buffer, asked),
            Content::SendHeaders(response) => response.write(connection, buffer),
            Content::BodyChunk(text) => writer::body_chunk(connection, buffer, text.as_bytes()),
            Content::End { reuse } => writer::end(connection, buffer, reuse),
        }
    }
}

impl fmt::Display for Content<'_> {
    fn fmt<W: fmt::Write>(&self, f: &mut fmt::Formatter<W>) -> fmt::Result {
        match *self {
            Content::CPing => write!(f, "CPing"),
            Content::CPong => write!(f, "CPong"),
            Content::Forward(request) => {
                write!(f, "Forward, {} {}", request.method, request.req_uri)
            }
            Content::Body(text) => write!(f, "body packet of {} bytes", text.len()),
            Content::GetBody(asked) => write!(f, "Get Body Chunk of {asked} bytes"),
            Content::SendHeaders(response) => {
                write!(f, "Send Headers, {} {}", response.status, response.message)
            }
            Content::BodyChunk(text) => write!(f, "Send Body Chunk of {} bytes", text.len()),
            Content::End { reuse: true } => write!(f, "End, reuse"),
            Content::End { reuse: false } => write!(f, "End, no reuse"),
        }
    }
}
