//! Replies as they are written. The script `checks/replies` reads these same texts, and lets Python's
//! `http.client` read each.

/// The version of a service, where the session closes.
pub const VERSION: &[u8] =
    b"HTTP/1.1 200 OK\r\nContent-Type: text/plain\r\nContent-Length: 6\r\nX-Archive-Front: 1\r\nConnection: close\r\n\r\n1.2.0\n";

/// Records, of which there is none.
pub const EMPTY: &[u8] =
    b"HTTP/1.1 200 OK\r\nContent-Type: application/vnd.fdsn.mseed\r\nContent-Length: 0\r\nX-Archive-Front: 18446744073709551615\r\n\r\n";

/// No content.
pub const NO_CONTENT: &[u8] = b"HTTP/1.1 204 No Content\r\nX-Archive-Front: 1\r\n\r\n";

/// A client is asked for credentials.
pub const ASKED: &[u8] =
    b"HTTP/1.1 401 Unauthorized\r\nContent-Type: text/plain\r\nContent-Length: 34\r\nWWW-Authenticate: Digest realm=\"FDSN\", qop=\"auth\", algorithm=MD5, nonce=\"0000000065e11a800123456789abcdef0123456789abcdef\"\r\nX-Archive-Front: 1\r\n\r\nError 401: authentication: Absent\n";

/// It is asked again, since its nonce was too old.
pub const STALE: &[u8] =
    b"HTTP/1.1 401 Unauthorized\r\nContent-Type: text/plain\r\nContent-Length: 33\r\nWWW-Authenticate: Digest realm=\"FDSN\", qop=\"auth\", algorithm=MD5, nonce=\"0000000065e11a800123456789abcdef0123456789abcdef\", stale=true\r\nX-Archive-Front: 1\r\n\r\nError 401: authentication: Stale\n";

/// A method that the path doesn't have.
pub const GET_ALONE: &[u8] =
    b"HTTP/1.1 405 Method Not Allowed\r\nContent-Type: text/plain\r\nContent-Length: 30\r\nAllow: GET\r\nX-Archive-Front: 1\r\n\r\nError 405: method not allowed\n";

pub const POST_ALONE: &[u8] =
    b"HTTP/1.1 405 Method Not Allowed\r\nContent-Type: text/plain\r\nContent-Length: 30\r\nAllow: POST\r\nX-Archive-Front: 1\r\n\r\nError 405: method not allowed\n";

pub const BOTH: &[u8] =
    b"HTTP/1.1 405 Method Not Allowed\r\nContent-Type: text/plain\r\nContent-Length: 30\r\nAllow: GET, POST\r\nX-Archive-Front: 1\r\n\r\nError 405: method not allowed\n";

/// No such path, asked by HEAD.
pub const HEAD_ONLY: &[u8] =
    b"HTTP/1.1 404 Not Found\r\nContent-Type: text/plain\r\nContent-Length: 24\r\nX-Archive-Front: 1\r\n\r\n";

/// Out of memory, where the session closes.
pub const NO_MEMORY: &[u8] =
    b"HTTP/1.1 500 Internal Server Error\r\nContent-Type: application/octet-stream\r\nContent-Length: 25\r\nX-Archive-Front: 1\r\nConnection: close\r\n\r\nError 500: out of memory\n";
