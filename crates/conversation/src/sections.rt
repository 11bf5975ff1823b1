// The conversation, section by section. The server's end refuses to send a second Forward before the first request is over, and a body packet
// with more bytes than were asked for; the container's end refuses to send an End while a body packet is due, and a chunk with bytes in the
// response to a HEAD; and nothing more can be sent on a closed connection.
use crate::content::Content;
use crate::piece::{Attribute, Header, Request, Response};

// What is sent under a title, in order.
#[derive(Clone, Copy)]
pub struct Section<'a> {
    pub title: &'a str,
    pub sends: &'a [Content<'a>],
}

const HOST: Header<'static> = Header {
    name: "Host",
    value: "orchard.example",
};

const PLAIN_TEXT: Header<'static> = Header {
    name: "Content-Type",
    value: "text/plain",
};

// A request with a body, one for its headers alone, and one without a body.
const POST_VALVES: Request<'static> = Request {
    method: "POST",
    req_uri: "/valves/7",
    server_port: 80,
    is_ssl: false,
    headers: &[
        HOST,
        PLAIN_TEXT,
        Header {
            name: "Content-Length",
            value: "27",
        },
        Header {
            name: "X-Gardener",
            value: "Malee",
        },
    ],
    attributes: &[
        Attribute::Text("route", "basin-2"),
        Attribute::Pair("soil", "dry"),
    ],
};

const HEAD_VALVES: Request<'static> = Request {
    method: "HEAD",
    req_uri: "/valves/7",
    server_port: 80,
    is_ssl: false,
    headers: &[HOST],
    attributes: &[],
};

const GET_TREES: Request<'static> = Request {
    method: "GET",
    req_uri: "/trees/12",
    server_port: 443,
    is_ssl: true,
    headers: &[HOST],
    attributes: &[
        Attribute::Text("query_string", "height"),
        Attribute::Integer("ssl_key_size", 256),
    ],
};

// The response to the first two, and the one to the last.
const VALVES_RESPONSE: Response<'static> = Response {
    status: 200,
    message: "OK",
    headers: &[
        PLAIN_TEXT,
        Header {
            name: "Content-Length",
            value: "14",
        },
    ],
};

const TREES_RESPONSE: Response<'static> = Response {
    status: 200,
    message: "OK",
    headers: &[
        PLAIN_TEXT,
        Header {
            name: "Content-Length",
            value: "8",
        },
    ],
};

pub const SECTIONS: [Section<'static>; 5] = [
    Section {
        title: "A ping",
        sends: &[Content::CPing, Content::CPong],
    },
    Section {
        title: "A request with a body",
        sends: &[
            Content::Forward(POST_VALVES),
            Content::Body("valve=open"),
            Content::Forward(GET_TREES),
            Content::GetBody(8),
            Content::Body(";min=20;tree=lime"),
            Content::Body(";min=20;"),
            Content::GetBody(8186),
            Content::Body("tree=lime"),
        ],
    },
    Section {
        title: "Its response",
        sends: &[
            Content::SendHeaders(VALVES_RESPONSE),
            Content::BodyChunk("opened: "),
            Content::GetBody(8186),
            Content::End { reuse: true },
            Content::Body(""),
            Content::BodyChunk("20 min"),
            Content::End { reuse: true },
        ],
    },
    Section {
        title: "A HEAD, whose response has no body",
        sends: &[
            Content::Forward(HEAD_VALVES),
            Content::SendHeaders(VALVES_RESPONSE),
            Content::BodyChunk("opened: "),
            Content::BodyChunk(""),
            Content::End { reuse: true },
        ],
    },
    Section {
        title: "A request without a body, the last one",
        sends: &[
            Content::Forward(GET_TREES),
            Content::SendHeaders(TREES_RESPONSE),
            Content::BodyChunk("lime, 3m"),
            Content::End { reuse: false },
            Content::CPing,
        ],
    },
];
