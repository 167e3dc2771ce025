//! Checks whether bytes end inside a request target.
ghost use Rattle.std.specs.Prelude.{◌≡◌, ◌↔◌, IsTrue};
ghost use Rattle.httparse.specs.Grammar.{EndsInTarget};
ghost use Rattle.land_wire.specs.Framing.Target.{next_scan_state, scan_state_after};

use httparse::{is_method_token, is_uri_token};

/// The state of a scan from the front of a head.
#[derive(Clone, Copy, Debug, PartialEq, Eq)]
pub enum ScanState {
    /// At the start of a line, after empty lines only.
    Blank,
    /// After a carriage return on such a line.
    Return,
    /// Inside the method.
    Method,
    /// Inside the target.
    Target,
    /// After the target, or not in a request line.
    Elsewhere,
}

/// Checks whether the bytes end inside a request target: after empty lines, a method, a space and any bytes
/// of a target (RFC 9112, section 3).
pub fn ends_in_target(bytes: &[u8]) -> bool
    ensures { IsTrue result ↔ EndsInTarget bytes.now }
{
    matches!(scan_state_after(bytes), ScanState::Target)
}

fn scan_state_after(bytes: &[u8]) -> ScanState
    ensures { result ≡ scan_state_after ScanState.Blank bytes.now }
{
    let mut place = ScanState::Blank;
    for byte in bytes {
        place = next_scan_state(place, *byte);
    }
    place
}

fn next_scan_state(place: ScanState, byte: u8) -> ScanState
    ensures { result ≡ next_scan_state place byte }
{
    match place {
        ScanState::Blank if byte == b'\r' => ScanState::Return,
        ScanState::Blank if byte == b'\n' => ScanState::Blank,
        ScanState::Blank if is_method_token(byte) => ScanState::Method,
        ScanState::Return if byte == b'\n' => ScanState::Blank,
        ScanState::Method if byte == b' ' => ScanState::Target,
        ScanState::Method if is_method_token(byte) => ScanState::Method,
        ScanState::Target if is_uri_token(byte) => ScanState::Target,
        _ => ScanState::Elsewhere,
    }
}
