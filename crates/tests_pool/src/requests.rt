//! Requests to a new register, and bytes that are none.

/// Enrols Ben, Carla, Dora, Emil and Finn.
pub(crate) const BEN: &[u8] =
    b"POST /acts/enrol HTTP/1.1\r\nRegister-Party: 1\r\nRegister-Role: stateAdministrator\r\nContent-Length: 37\r\n\r\n{\"kind\":\"naturalPerson\",\"name\":\"Ben\"}";

pub(crate) const CARLA: &[u8] =
    b"POST /acts/enrol HTTP/1.1\r\nRegister-Party: 1\r\nRegister-Role: stateAdministrator\r\nContent-Length: 39\r\n\r\n{\"kind\":\"naturalPerson\",\"name\":\"Carla\"}";

pub(crate) const DORA: &[u8] =
    b"POST /acts/enrol HTTP/1.1\r\nRegister-Party: 1\r\nRegister-Role: stateAdministrator\r\nContent-Length: 38\r\n\r\n{\"kind\":\"naturalPerson\",\"name\":\"Dora\"}";

pub(crate) const EMIL: &[u8] =
    b"POST /acts/enrol HTTP/1.1\r\nRegister-Party: 1\r\nRegister-Role: stateAdministrator\r\nContent-Length: 38\r\n\r\n{\"kind\":\"naturalPerson\",\"name\":\"Emil\"}";

pub(crate) const FINN: &[u8] =
    b"POST /acts/enrol HTTP/1.1\r\nRegister-Party: 1\r\nRegister-Role: stateAdministrator\r\nContent-Length: 38\r\n\r\n{\"kind\":\"naturalPerson\",\"name\":\"Finn\"}";

/// Lists the parties.
pub(crate) const LIST: &[u8] =
    b"GET /parties HTTP/1.1\r\nRegister-Party: 1\r\nRegister-Role: stateAdministrator\r\n\r\n";

/// A truncated request, which at the end of the input is the fault 144.
pub(crate) const TRUNCATED: &[u8] = b"POST /acts/enrol HT";

/// No request: the fault 140.
pub(crate) const FAULTY: &[u8] = b"HELLO\r\n\r\n";
