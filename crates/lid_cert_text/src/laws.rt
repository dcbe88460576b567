//! What is known of printed certificates. Each function here does nothing; its contract is a law for all
//! certificates.

ghost use Rattle.lid_cert_text.specs.Printed.{PrintedIsReadBack, PrintedIsShort, RoomIsSmall};

/// The text of a certificate is read back as the certificate, where each part has a transition, an edge
/// of its walk, and numbers in the ranges of the text, and the text has at most 16,777,216 bytes. A
/// longer text is refused, whatever it says.
pub fn printed_is_read_back()
    ensures { PrintedIsReadBack }
{}

/// The text of such a certificate, with fewer than 2^32 transitions in each part, has at most 11 bytes,
/// and for each part 50, 11 for each edge of its walk and 78 for each transition.
pub fn printed_is_short()
    ensures { PrintedIsShort }
{}

/// Where no walk has more edges than its part has transitions, that is at most 139 bytes for each
/// transition of all parts together.
pub fn room_is_small()
    ensures { RoomIsSmall }
{}
